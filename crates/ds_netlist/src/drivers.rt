//! The drivers of one net.
ghost use Rattle.std.specs.Prelude.{◌≡◌, ◌++◌, map, IfOk, OnOk};
ghost use Rattle.ds_design.specs.Circuit.{columns as columns_of};
ghost use Rattle.ds_netlist.specs.Drivers.{drivers_in, drivers_of};
ghost use Rattle.ds_netlist.specs.declared.fault.Driver.TheVariants.{Input, Latch, Table};

use crate::Driver;
use ds_base::NetId;
use ds_design::{Design, Gate, Register};
use std::alloc::{AllocError, Global};

// The drivers of a net, in order.
pub(crate) fn drivers_to(
    alloc: Global,
    design: &Design,
    columns: &[NetId],
    net: NetId,
) -> Result<Vec<Driver>, AllocError>
    requires columns { columns.now ≡ columns_of design.now }
    ensures ok { IfOk result (λ v. v.items ≡ drivers_of design.now net) }
{
    let mut drivers: Vec<Driver> = Vec::new(alloc);
    push_inputs(&mut drivers, columns, net)?;
    push_tables(&mut drivers, design.tables(), net)?;
    push_latches(&mut drivers, design.registers(), net)?;
    Ok(drivers)
}

// Adds the columns that are the net.
fn push_inputs(drivers: &mut Vec<Driver>, columns: &[NetId], net: NetId) -> Result<(), AllocError>
    ensures ok { OnOk result (drivers.new.items
        ≡ drivers.old.items ++ drivers_in (map (λ i. (i, Input)) columns.now) net) }
{
    for column in columns {
        if *column == net {
            drivers.push(Driver::Input)?;
        }
    }
    Ok(())
}

// Adds the tables that drive the net.
fn push_tables(drivers: &mut Vec<Driver>, tables: &[Gate], net: NetId) -> Result<(), AllocError>
    ensures ok { OnOk result (drivers.new.items
        ≡ drivers.old.items ++ drivers_in (map (λ t. (t.output, Table t.line)) tables.now) net) }
{
    for table in tables {
        if table.output == net {
            drivers.push(Driver::Table(table.line))?;
        }
    }
    Ok(())
}

// Adds the registers that drive the net.
fn push_latches(
    drivers: &mut Vec<Driver>,
    registers: &[Register],
    net: NetId,
) -> Result<(), AllocError>
    ensures ok { OnOk result (drivers.new.items
        ≡ drivers.old.items ++ drivers_in (map (λ r. (r.output, Latch r.line)) registers.now) net) }
{
    for register in registers {
        if register.output == net {
            drivers.push(Driver::Latch(register.line))?;
        }
    }
    Ok(())
}
