//! The table that drives each net.
ghost use Rattle.std.specs.Prelude.{◌≡◌, ◌<◌, length, All, IfOk, slice_index_or};
ghost use Rattle.ds_design.specs.declared.design.Gate.{Gate};
ghost use Rattle.ds_settle.specs.Walk.{AreDrivers, IsDriver};

use ds_base::{NetId, OutOfMemory};
use ds_design::Netlist;
use std::alloc::Global;
use std::marker::Model;

// A netlist with the table that drives each net, where one does.
#[derive(Drop)]
pub(crate) struct Drivers<'a> {
    netlist: &'a Netlist,
    drivers: Vec<Option<u32>>,
}

impl<'a> Model for Drivers<'a> {
    ghost use Rattle.std.specs.Prelude.{length};
    ghost use Rattle.ds_design.specs.Circuit.{Circuit};
    ghost use Rattle.ds_settle.specs.Walk.{AreDrivers};

    ghost Value = { Circuit };

    ghost view = { λ d. d.netlist.now };

    ghost invariant = { λ d.
        AreDrivers d.netlist.now (length d.netlist.now.tables) d.drivers.items };
}

impl<'a> Drivers<'a> {
    pub(crate) fn of(alloc: Global, netlist: &'a Netlist) -> Result<Self, OutOfMemory>
        ensures { IfOk result (λ drivers. drivers ≡ netlist.now) }
    {
        let drivers = drivers_of(alloc, netlist)?;
        Ok(Drivers { netlist, drivers })
    }

    pub(crate) fn netlist(&self) -> &'a Netlist
        ensures { result.now ≡ self.now }
    {
        self.netlist
    }

    // The table that drives a net.
    pub(crate) fn driver(&self, net: NetId) -> Option<u32>
        requires { net < length self.now.nets }
        ensures { IsDriver self.now (length self.now.tables) net result }
    {
        self.drivers[net.index()]
    }
}

/// The number of the table that drives each net, where one does.
pub fn drivers_of(alloc: Global, netlist: &Netlist) -> Result<Vec<Option<u32>>, OutOfMemory>
    ensures { IfOk result (λ v. AreDrivers netlist.now (length netlist.now.tables) v.items) }
{
    let design = netlist.design();
    let mut drivers: Vec<Option<u32>> = vec![in alloc; None; design.nets().len()]?;
    for (k, gate) in design.tables().iter().enumerate() {
        drivers[gate.output.index()] = Some(k as u32);
    }
    Ok(drivers)
}
