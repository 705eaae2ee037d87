//! The run of a plan on vectors.
ghost use Rattle.std.specs.Prelude.{◌≡◌, length, IfOk};
ghost use Rattle.ds_design.specs.Circuit.{columns};
ghost use Rattle.ds_rule.specs.Sound.{IsSound};
ghost use Rattle.ds_rule.specs.Progress.{IsRunAccepted};
ghost use Rattle.ds_run.specs.RunOfPlan.{IsRunOf};

use crate::edges::edges_of;
use crate::foreseen::Foreseen;
use crate::lengths::lengths_of;
use ds_base::OutOfMemory;
use ds_design::Vectors;
use ds_latch::Plan;
use ds_rule::{Sizes, TableRun};
use std::alloc::Global;

/// The run of a plan on vectors.
pub fn table_run_of<'a, 'n>(
    alloc: Global,
    plan: &'a Plan<'n>,
    vectors: &'a Vectors,
) -> Result<TableRun<Foreseen<'a, 'n>>, OutOfMemory>
    requires width { vectors.now.width ≡ length (columns plan.now.split.circuit) }
    ensures run { IfOk result (IsRunOf plan.now vectors.now.rows) }
    ensures sound { IfOk result IsSound }
    ensures accepted { IfOk result IsRunAccepted }
{
    let (split, graph) = (plan.latches(), plan.graph());
    let limit = vectors.count() as u64;
    // A node of the design has two events; an extra event is a node of its own, behind them.
    let design_nodes = split.nodes();
    let nodes = graph.events().len() - design_nodes;
    let arcs = graph.arcs().to_vec(alloc)?;
    let edges = edges_of(alloc, split)?;
    let lengths = lengths_of(alloc, split, nodes)?;
    let slack = usize::from(split.slack());
    let netlist = split.netlist();
    // The design is read for the facts that it is accepted and its numbers name what is there.
    let (_design, order) = (netlist.design(), netlist.order());
    let rows = Foreseen {
        latches: split,
        vectors,
        order,
        count: nodes,
    };
    let sizes = Sizes {
        nodes,
        design_nodes,
        limit,
        slack,
    };
    Ok(TableRun::of(sizes, arcs, edges, lengths, rows))
}
