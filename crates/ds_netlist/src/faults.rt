//! The first fault but for cycles.
ghost use Rattle.std.specs.Prelude.{◌≡◌, ◌≤◌, ◌++◌, length, IfOk, None, Some};
ghost use Rattle.ds_design.specs.Circuit.{columns as columns_of, control_nets, register_nets};
ghost use Rattle.ds_design.specs.Circuit.{used as used_of};
ghost use Rattle.ds_design.specs.InRange.{IsInRange};
ghost use Rattle.ds_design.specs.Levels.{table_nets};
ghost use Rattle.ds_netlist.specs.Drivers.{drivers_of};
ghost use Rattle.ds_netlist.specs.Fault.{several_clocks, twice_driven};
ghost use Rattle.ds_netlist.specs.Steps.{driver_fault as driver_fault_of};
ghost use Rattle.ds_netlist.specs.Steps.{later_fault as later_fault_of};

use crate::NetFault;
use crate::clock::{clock_in, first_name, two_edges};
use crate::counts::{counts_of, first_free, first_twice};
use crate::drivers::drivers_to;
use crate::lists::{driven_nets, used_nets};
use ds_base::NetId;
use ds_design::Design;
use std::alloc::{AllocError, Global};

// The first fault where there are no two control names.
pub(crate) fn later_fault(
    alloc: Global,
    design: &Design,
    names: &[NetId],
    columns: &[NetId],
) -> Result<Option<NetFault>, AllocError>
    requires one { several_clocks (control_nets design.now) ≡ None }
    requires names { names.now ≡ control_nets design.now }
    requires columns { columns.now ≡ columns_of design.now }
    ensures ok { IfOk result (λ fault. fault ≡ later_fault_of design.now) }
{
    if let Some(fault) = two_edges(design.registers()) {
        return Ok(Some(fault));
    }
    let driven = driven_nets(alloc, design)?;
    if let Some(net) = clock_in(driven.as_slice(), first_name(names)) {
        return Ok(Some(NetFault::DrivenClock(net)));
    }
    let used = used_nets(alloc, design)?;
    if let Some(net) = clock_in(used.as_slice(), first_name(names)) {
        return Ok(Some(NetFault::ClockAsData(net)));
    }
    driver_fault(alloc, design, columns, driven.as_slice(), used.as_slice())
}

// The first fault of the drivers.
fn driver_fault(
    alloc: Global,
    design: &Design,
    columns: &[NetId],
    driven: &[NetId],
    used: &[NetId],
) -> Result<Option<NetFault>, AllocError>
    requires in_range { IsInRange design.now }
    requires columns { columns.now ≡ columns_of design.now }
    requires driven { driven.now ≡ table_nets design.now ++ register_nets design.now }
    requires used { used.now ≡ used_of design.now }
    ensures ok { IfOk result (λ fault. fault ≡ driver_fault_of design.now) }
{
    let count = design.nets().len();
    let drivers = joined(alloc, columns, driven)?;
    let counts = counts_of(alloc, count, drivers.as_slice())?;
    if let Some(net) = first_twice(counts.as_slice()) {
        let fault = driven_twice(alloc, design, columns, NetId::new(net as u32))?;
        return Ok(Some(fault));
    }
    let uses = counts_of(alloc, count, used)?;
    match first_free(uses.as_slice(), counts.as_slice()) {
        Some(net) => Ok(Some(NetFault::Undriven(NetId::new(net as u32)))),
        None => Ok(None),
    }
}

// The nets of both lists.
fn joined(alloc: Global, columns: &[NetId], driven: &[NetId]) -> Result<Vec<NetId>, AllocError>
    ensures ok { IfOk result (λ v. v.items ≡ columns.now ++ driven.now) }
{
    let mut nets: Vec<NetId> = Vec::new(alloc);
    nets.extend_from_slice(columns)?;
    nets.extend_from_slice(driven)?;
    Ok(nets)
}

// The fault of a net that is driven twice.
fn driven_twice(
    alloc: Global,
    design: &Design,
    columns: &[NetId],
    net: NetId,
) -> Result<NetFault, AllocError>
    requires columns { columns.now ≡ columns_of design.now }
    requires twice { 2 ≤ length (drivers_of design.now net) }
    ensures ok { IfOk result (λ fault. twice_driven net (drivers_of design.now net) ≡ Some fault) }
{
    let drivers = drivers_to(alloc, design, columns, net)?;
    Ok(NetFault::MultiplyDriven(net, drivers[0], drivers[1]))
}
