//! From a design to a netlist, or to its fault.
ghost use Rattle.std.specs.Prelude.{◌≡◌, IfOk, IfErr, MatchResult};
ghost use Rattle.ds_netlist.specs.Fault.{IsNetFault};
ghost use Rattle.ds_netlist.specs.Named.{IsNamed};
ghost use Rattle.ds_netlist.specs.Verdict.{AreNetlistParts, IsRefusal};

use crate::NetFault;
use crate::clock::{first_name, two_clocks};
use crate::faults::later_fault;
use crate::levels::level_nets;
use crate::lists::{column_nets, control_names};
use crate::order::table_order;
use crate::packed::series_of;
use ds_base::{NetId, Seq};
use ds_cover::Series;
use ds_design::{Design, Netlist};
use std::alloc::Global;

/// Checks a design and levels its nets. A refusal gives the design back.
pub fn levelise(alloc: Global, design: Design) -> Result<Netlist, (Design, NetFault)>
    ensures ok { IfOk result (λ netlist. netlist ≡ design) }

    // The design comes back with its fault, whose nets and registers are there.
    ensures back { IfErr result (λ refusal. refusal.0 ≡ design) }
    ensures fault { IfErr result (λ refusal. IsNetFault design refusal.1) }
    ensures in_range { IfErr result (λ refusal. IsNamed design refusal.1) }
{
    match check(alloc, &design) {
        Ok(parts) => Ok(Netlist::of(
            design,
            Seq::of(parts.columns),
            Seq::of(parts.levels),
            parts.series,
        )),
        Err(fault) => Err((design, fault)),
    }
}

// What a netlist keeps beside its design.
#[derive(Drop)]
struct Parts {
    columns: Vec<NetId>,
    levels: Vec<u64>,
    series: Series,
}

// The parts of the netlist, or the fault.
fn check(alloc: Global, design: &Design) -> Result<Parts, NetFault>
    ensures checked { MatchResult result
        (λ p. AreNetlistParts design.now p.columns.items p.levels.items p.series.order
        p.series.tables)
        (λ fault. IsRefusal design.now fault) }
{
    let inputs = design.inputs();
    let names = control_names(alloc, design)?;
    if let Some(fault) = two_clocks(names.as_slice()) {
        return Err(fault);
    }
    let columns = column_nets(alloc, inputs, first_name(names.as_slice()))?;
    if let Some(fault) = later_fault(alloc, design, names.as_slice(), columns.as_slice())? {
        return Err(fault);
    }
    let levels = level_nets(alloc, design)?;
    let order = table_order(alloc, design.tables(), levels.as_slice())?;
    let series = series_of(alloc, design.tables(), order)?;
    Ok(Parts {
        columns,
        levels,
        series,
    })
}
