//! The cones of a netlist.
ghost use Rattle.std.specs.Prelude.{◌≡◌, ◌<◌, length, All, IfOk};
ghost use Rattle.ds_settle.specs.Cone.{IsCone};

use crate::Cone;
use crate::drivers::Drivers;
use crate::marks::Marks;
use crate::walk::walk;
use ds_base::{NetId, OutOfMemory};
use ds_design::{Netlist, by_level};
use std::alloc::Global;
use std::marker::Model;

/// Finds the cones of one netlist, each in time linear in its size, up to the sort of its tables.
/// Contracts see the design.
#[derive(Drop)]
pub struct Finder<'a> {
    drivers: Drivers<'a>,
    marks: Marks,
}

impl<'a> Model for Finder<'a> {
    ghost use Rattle.std.specs.Prelude.{◌≡◌, length};
    ghost use Rattle.ds_design.specs.Circuit.{Circuit};

    ghost Value = { Circuit };

    ghost view = { λ finder. finder.drivers };

    ghost invariant = { λ finder. length finder.marks ≡ length finder.drivers.nets };
}

impl<'a> Finder<'a> {
    /// For this netlist.
    pub fn of(alloc: Global, netlist: &'a Netlist) -> Result<Self, OutOfMemory>
        ensures { IfOk result (λ finder. finder ≡ netlist.now) }
    {
        let nets = netlist.design().nets().len();
        Ok(Finder {
            drivers: Drivers::of(alloc, netlist)?,
            marks: Marks::new(alloc, nets)?,
        })
    }

    /// The cone of these nets. A net of a register is a source, so the walk ends there.
    pub fn cone(&mut self, alloc: Global, these: &[NetId]) -> Result<Cone, OutOfMemory>
        requires { All (λ net. net < length self.old.nets) these.now }
        ensures ok { IfOk result (IsCone self.old these.now) }
        ensures same { self.new ≡ self.old }
    {
        let found = walk(alloc, &self.drivers, &mut self.marks, these)?;
        let netlist = self.drivers.netlist();
        let (all, levels) = (netlist.design().tables(), netlist.net_levels());
        let tables = by_level(alloc, all, levels, found.tables())?;
        Ok(found.with_tables(tables))
    }
}

/// The cone of these nets of a netlist. For several cones of one netlist, a finder is faster.
pub fn cone_of(alloc: Global, netlist: &Netlist, these: &[NetId]) -> Result<Cone, OutOfMemory>
    requires { All (λ net. net < length netlist.now.nets) these.now }
    ensures { IfOk result (IsCone netlist.now these.now) }
{
    let mut finder = Finder::of(alloc, netlist)?;
    finder.cone(alloc, these)
}
