//! Hints made: an event that fired makes others due, which wait for it.
ghost use Rattle.std.specs.Prelude.{◌<◌};
ghost use Rattle.ds_runner.specs.Work.{HasPassOfEach};
ghost use Rattle.ds_rule.specs.Sound.{IsSound};

use crate::scheduler::Scheduler;
use crate::search::is_due;
use crate::search_path::SearchPath;
use crate::workload::Workload;
use ds_base::OutOfMemory;
use ds_fabric::Compute;
use ds_outside::Gate;
use ds_rule::{RunValues, TableRun};
use std::alloc::Global;

// The most arcs of an event that are looked at.
const TARGETS: usize = 64;

/// Tells of the nodes that seem due along the first arcs from an event.
pub fn tell_targets<V: RunValues, C: Compute, G: Gate>(
    workload: &Workload<'_, '_, V, C, G>,
    scheduler: &Scheduler,
    search_path: &mut SearchPath,
    event: usize,
)
    requires fits { HasPassOfEach workload.now scheduler.now.stile }
{
    if event >= scheduler.arcs_from.len() {
        return;
    }
    let arcs = workload.run.arcs();
    let first = scheduler.arcs_from[event];
    for k in first..arcs.len().min(first.saturating_add(TARGETS)) {
        if arcs[k].source.index() != event {
            return;
        }
        let node = workload.run.node_of(arcs[k].target.index());
        if is_due(workload, scheduler, search_path.begins.as_mut_slice(), node) {
            search_path.hints.push(node as u32);
        }
    }
}

/// For each event the number of the first arc from it, or the number of all arcs where none is from
/// it. The arcs of an event stand together.
pub fn arcs_from<V: RunValues>(alloc: Global, run: &TableRun<V>) -> Result<Vec<usize>, OutOfMemory>
    requires { IsSound run.now }
{
    let mut firsts = vec![in alloc; run.arcs().len(); run.nodes() + run.design_nodes()]?;
    note_firsts(run, firsts.as_mut_slice());
    Ok(firsts)
}

// Notes each arc at its source, the last arc first: what stays is the first of each source.
fn note_firsts<V: RunValues>(run: &TableRun<V>, firsts: &mut [usize]) {
    let arcs = run.arcs();
    for i in 0..arcs.len() {
        let k = arcs.len() - 1 - i;
        let source = arcs[k].source.index();
        if source < firsts.len() {
            firsts[source] = k;
        }
    }
}
