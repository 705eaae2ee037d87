//! The nets of a design, by what they are there for.
ghost use Rattle.std.specs.Prelude.{◌≡◌, ◌++◌, not, IfOk};
ghost use Rattle.std.specs.List.{filter};
ghost use Rattle.ds_design.specs.Circuit.{control_nets, register_nets, used};
ghost use Rattle.ds_design.specs.Levels.{table_nets};
ghost use Rattle.ds_netlist.specs.Steps.{is_clock};

use ds_base::NetId;
use ds_design::Design;
use std::alloc::{AllocError, Global};

// The `.clock` nets, then the controls of the registers.
pub(crate) fn control_names(alloc: Global, design: &Design) -> Result<Vec<NetId>, AllocError>
    ensures ok { IfOk result (λ v. v.items ≡ control_nets design.now) }
{
    let controls = design.registers().iter().filter_map(|r| r.control);
    design
        .clocks()
        .iter()
        .copied()
        .chain(controls)
        .collect(alloc)
}

// The inputs that are not the clock.
pub(crate) fn column_nets(
    alloc: Global,
    inputs: &[NetId],
    clock: Option<NetId>,
) -> Result<Vec<NetId>, AllocError>
    ensures ok { IfOk result (λ v. v.items ≡ filter (λ net. not (is_clock clock net)) inputs.now) }
{
    inputs
        .iter()
        .copied()
        .filter(|net| !is_the_clock(clock, *net))
        .collect(alloc)
}

// Whether a net is the clock.
fn is_the_clock(clock: Option<NetId>, net: NetId) -> bool
    ensures value { result ≡ is_clock clock net }
{
    match clock {
        Some(clock) => clock == net,
        None => false,
    }
}

// What the tables drive, then what the registers drive.
pub(crate) fn driven_nets(alloc: Global, design: &Design) -> Result<Vec<NetId>, AllocError>
    ensures ok { IfOk result (λ v. v.items ≡ table_nets design.now ++ register_nets design.now) }
{
    let registers = design.registers().iter().map(|r| r.output);
    design
        .tables()
        .iter()
        .map(|table| table.output)
        .chain(registers)
        .collect(alloc)
}

// The inputs of the tables and of the registers, then the outputs of the design.
pub(crate) fn used_nets(alloc: Global, design: &Design) -> Result<Vec<NetId>, AllocError>
    ensures ok { IfOk result (λ v. v.items ≡ used design.now) }
{
    let mut nets: Vec<NetId> = Vec::new(alloc);
    for table in design.tables() {
        nets.extend_from_slice(table.table.inputs())?;
    }
    for register in design.registers() {
        nets.push(register.data_net)?;
    }
    nets.extend_from_slice(design.outputs())?;
    Ok(nets)
}
