//! A worker at work: visits to nodes that seem due, until all is done or its budget is used up.
ghost use Rattle.std.specs.Prelude.{◌≡◌, ◌<◌, ◌≤◌, ◌+◌, IsTrue, MatchOption};
ghost use Rattle.ds_runner.specs.Work.{HasPassOfEach, IsWorker, IsWithin, Waits};

use crate::budget::Budget;
use crate::fired::Fired;
use crate::scheduler::Scheduler;
use crate::search::search;
use crate::search_path::SearchPath;
use crate::targets::tell_targets;
use crate::visit::visit;
use crate::worker::Worker;
use crate::workload::Workload;
use ds_fabric::Compute;
use ds_outside::Gate;
use ds_rule::RunValues;
use std::thread;

/// Visits one node after another, within the budget.
pub fn drive<V: RunValues, C: Compute, G: Gate>(
    workload: &Workload<'_, '_, V, C, G>,
    scheduler: &Scheduler,
    worker: &mut Worker,
    budget: Budget,
)
    requires fits { HasPassOfEach workload.now scheduler.now.stile }
    requires worker { IsWithin workload.now scheduler.now.stile 0 worker.old }
    ensures { IsWithin workload.now scheduler.now.stile budget.firings worker.new }
{
    let mut left = budget;
    'visits: while left.takes > 0 && left.firings > 0 {
        if let Some(fired) = visit_next(workload, scheduler, worker, left.firings) {
            left.spend(fired);
        } else if !wait(workload, worker, &mut left) {
            return;
        }
    }
}

// Visits the next node that seems due, and says how often it fired. None: no node seems due.
fn visit_next<V: RunValues, C: Compute, G: Gate>(
    workload: &Workload<'_, '_, V, C, G>,
    scheduler: &Scheduler,
    worker: &mut Worker,
    most: u64,
) -> Option<u64>
    requires fits { HasPassOfEach workload.now scheduler.now.stile }
    requires worker { IsWorker workload.now scheduler.now.stile worker.old }
    requires most { 0 < most }
    ensures worker { IsWorker workload.now scheduler.now.stile worker.new }
    ensures made { MatchOption result (worker.new.turn.view.made ≡ worker.old.turn.view.made)
        (λ fired. (worker.new.turn.view.made ≡ worker.old.turn.view.made + fired)
        × (fired ≤ most)) }
{
    let node = search(workload, scheduler, worker.number, &mut worker.search_path)?;
    let fired = visit(workload, scheduler, worker, node, most);
    if !worker.search_path.soon {
        tell_all(workload, scheduler, &mut worker.search_path, fired);
    }
    Some(fired.count())
}

// Tells of the nodes that seem due behind each event that fired.
fn tell_all<V: RunValues, C: Compute, G: Gate>(
    workload: &Workload<'_, '_, V, C, G>,
    scheduler: &Scheduler,
    search_path: &mut SearchPath,
    fired: Fired,
)
    requires fits { HasPassOfEach workload.now scheduler.now.stile }
{
    if let Some(event) = fired.first {
        tell_targets(workload, scheduler, search_path, event);
    }
    if let Some(event) = fired.second {
        tell_targets(workload, scheduler, search_path, event);
    }
}

// Lets others go first after a look at all nodes without a take: who has what it waits for may want
// its processor. False: the worker ends.
fn wait<V: RunValues, C: Compute, G: Gate>(
    workload: &Workload<'_, '_, V, C, G>,
    worker: &Worker,
    left: &mut Budget,
) -> bool
    ensures { IsTrue result → Waits left.old left.new }
{
    let looks = worker
        .search_path
        .part
        .count()
        .saturating_add(worker.search_path.all.count()) as u64;
    if left.looks <= looks || workload.fabric.seems_over() {
        return false;
    }
    left.looks -= looks + 1;
    thread::yield_now();
    true
}
