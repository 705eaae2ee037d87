//! How a worker finds a node to try: by a hint of its own, in its own part, by a hint of another
//! worker, or in its round over all nodes. Plain looks say what seems due; a take alone says
//! whether the pass is there.
ghost use Rattle.std.specs.Prelude.{◌<◌, IsTrue, IfSome};
ghost use Rattle.ds_runner.specs.Work.{HasPassOfEach};

use crate::round_robin::RoundRobin;
use crate::scheduler::Scheduler;
use crate::search_path::SearchPath;
use crate::workload::Workload;
use crossbeam_deque::Steal;
use ds_base::LatchId;
use ds_fabric::Compute;
use ds_outside::Gate;
use ds_rule::RunValues;

// The most hints that are tried before a worker looks for itself.
const HINTS: usize = 256;

// A part in which a node is found within so many looks needs no hints.
const SOON: usize = 16;

/// The node that the worker tries next. None: no node seems due.
pub fn search<V: RunValues, C: Compute, G: Gate>(
    workload: &Workload<'_, '_, V, C, G>,
    scheduler: &Scheduler,
    number: u32,
    search_path: &mut SearchPath,
) -> Option<usize>
    requires fits { HasPassOfEach workload.now scheduler.now.stile }
    ensures near { IfSome result (λ n. n < workload.now.run.nodes) }
{
    search_path.soon = false;
    if let Some(node) = hinted(workload, scheduler, search_path) {
        return Some(node);
    }
    let begins = search_path.begins.as_mut_slice();
    if let Some(node) = next_due(workload, scheduler, begins, &mut search_path.part) {
        search_path.soon = search_path.part.looks < SOON;
        return Some(node);
    }
    if let Some(node) = stolen(workload, scheduler, begins, number) {
        return Some(node);
    }
    next_due(workload, scheduler, begins, &mut search_path.all)
}

/// By plain looks the pass of the node is free, and its next event may fire. What it lacks is
/// kept for the next look. A number that is no node's is not due.
pub fn is_due<V: RunValues, C: Compute, G: Gate>(
    workload: &Workload<'_, '_, V, C, G>,
    scheduler: &Scheduler,
    begins: &mut [u8],
    node: usize,
) -> bool
    requires fits { HasPassOfEach workload.now scheduler.now.stile }
    ensures near { IsTrue result → node < workload.now.run.nodes }
{
    if node >= workload.run.nodes() || node >= begins.len() {
        return false;
    }
    let latch = LatchId::new(node as u32);
    if !scheduler.stile.seems_free(latch) {
        return false;
    }
    let Some(at) = workload.fabric.seems_lacking(latch, begins[node] as usize) else {
        return true;
    };
    begins[node] = at.min(255) as u8;
    false
}

// The latest hint that still seems due.
fn hinted<V: RunValues, C: Compute, G: Gate>(
    workload: &Workload<'_, '_, V, C, G>,
    scheduler: &Scheduler,
    search_path: &mut SearchPath,
) -> Option<usize>
    requires fits { HasPassOfEach workload.now scheduler.now.stile }
    ensures near { IfSome result (λ n. n < workload.now.run.nodes) }
{
    for _ in 0..HINTS {
        let hint = search_path.hints.pop()?;
        let begins = search_path.begins.as_mut_slice();
        if is_due(workload, scheduler, begins, hint as usize) {
            return Some(hint as usize);
        }
    }
    None
}

// The next node of a round that seems due.
fn next_due<V: RunValues, C: Compute, G: Gate>(
    workload: &Workload<'_, '_, V, C, G>,
    scheduler: &Scheduler,
    begins: &mut [u8],
    round: &mut RoundRobin,
) -> Option<usize>
    requires fits { HasPassOfEach workload.now scheduler.now.stile }
    ensures near { IfSome result (λ n. n < workload.now.run.nodes) }
{
    for looks in 0..round.count() {
        let node = round.step();
        if is_due(workload, scheduler, begins, node) {
            round.looks = looks;
            return Some(node);
        }
    }
    None
}

// A hint of another worker that still seems due.
fn stolen<V: RunValues, C: Compute, G: Gate>(
    workload: &Workload<'_, '_, V, C, G>,
    scheduler: &Scheduler,
    begins: &mut [u8],
    number: u32,
) -> Option<usize>
    requires fits { HasPassOfEach workload.now scheduler.now.stile }
    ensures near { IfSome result (λ n. n < workload.now.run.nodes) }
{
    let workers = scheduler.stealers.len();
    let own = number as usize;
    for i in 0..workers {
        let other = if i < workers.saturating_sub(own) {
            own + i
        } else {
            i - workers.saturating_sub(own)
        };
        if let Some(hint) = steal_from(scheduler, other, own) {
            if is_due(workload, scheduler, begins, hint as usize) {
                return Some(hint as usize);
            }
        }
    }
    None
}

// A hint of one other worker, if its deque has one.
fn steal_from(scheduler: &Scheduler, other: usize, own: usize) -> Option<u32> {
    if other == own || other >= scheduler.stealers.len() {
        return None;
    }
    let stealer = &scheduler.stealers[other];
    if stealer.is_empty() {
        return None;
    }
    match stealer.steal() {
        Steal::Success(hint) => Some(hint),
        Steal::Empty | Steal::Retry => None,
    }
}
