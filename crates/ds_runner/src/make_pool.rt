//! Workers made: each node gets a pass of its own, the turnstile takes these, and each worker gets
//! a turn. All memory that workers need is taken here.
ghost use Rattle.std.specs.Prelude.{◌≡◌, ◌<◌, ◌≤◌, ◌+◌, IfOk, OnOk, All, length};
ghost use Rattle.std.specs.Prelude.{vec_capacity};
ghost use Rattle.ds_base.specs.Scratch.{Remembers};
ghost use Rattle.ds_fabric.specs.Showing.{Belongs};
ghost use Rattle.ds_runner.specs.TurnstileRule.{HasNone, base};
ghost use Rattle.ds_runner.specs.Shown.{IsTurnOf};
ghost use Rattle.ds_runner.specs.Work.{HasFrom, IsLent, AreSingle, HasPassOfEach, IsWithin};
ghost use Rattle.ds_runner.specs.Work.{IsWorkerPool};
ghost use Rattle.ds_runner.specs.Work.{IsUnfired};

use crate::hints::Hints;
use crate::parts::borders_of;
use crate::round_robin::RoundRobin;
use crate::scheduler::Scheduler;
use crate::search_path::SearchPath;
use crate::targets::arcs_from;
use crate::worker::Worker;
use crate::worker_pool::WorkerPool;
use crate::workload::Workload;
use crate::{Turn, Turnstile};
use crossbeam_deque::Stealer;
use ds_base::{LatchId, OutOfMemory, Scratch};
use ds_fabric::{Compute, Pass};
use ds_outside::Gate;
use ds_rule::RunValues;
use std::alloc::Global;

/// So many workers, with a turn more for the caller. The pass is left without nodes.
pub fn make_pool<V: RunValues, C: Compute, G: Gate>(
    alloc: Global,
    workload: &Workload<'_, '_, V, C, G>,
    pass: &mut Pass,
    count: u32,
) -> Result<WorkerPool, OutOfMemory>
    requires fits { Belongs workload.now pass.old }
    requires has { HasFrom pass.old.view 0 }
    requires unfired { IsUnfired pass.old.view }
    requires count { (0 < count) × (count ≤ 64) × (0 < workload.now.run.nodes) }

    ensures ok { IfOk result (IsWorkerPool workload.now) }
    ensures ok_workers { IfOk result (λ c. (length c.workers.items ≡ count)
        × All (IsWithin workload.now c.scheduler.stile 0) c.workers.items) }
    ensures ok_lent { OnOk result (IsLent workload.now pass.old 0 workload.now.run.nodes pass.new) }
{
    let mut passes = deal_all(alloc, workload, pass)?;
    let (stile, mut turn) = Turnstile::build(alloc, &mut passes, count + 1)?;
    let (workers, stealers, arcs_from) = make_workers_and_stealers(
        alloc, workload, &stile, &mut turn, count,
    )?;
    let scheduler = Scheduler {
        stile,
        stealers,
        arcs_from,
    };
    Ok(WorkerPool {
        scheduler,
        turn,
        workers,
        passes,
    })
}

// A bare pass for each node, in order.
fn deal_all<V: RunValues, C: Compute, G: Gate>(
    alloc: Global,
    workload: &Workload<'_, '_, V, C, G>,
    pass: &mut Pass,
) -> Result<Vec<Pass>, OutOfMemory>
    requires fits { Belongs workload.now pass.old }
    requires has { HasFrom pass.old.view 0 }
    requires unfired { IsUnfired pass.old.view }

    ensures ok_unfired { IfOk result (λ v. base 0 v.items ≡ 0) }
    ensures ok { IfOk result (λ v. AreSingle workload.now v.items) }
    ensures ok_size { IfOk result (λ v. length v.items ≡ workload.now.run.nodes) }
    ensures ok_room { IfOk result (λ v. workload.now.run.nodes ≤ vec_capacity v) }
    ensures ok_lent { OnOk result (IsLent workload.now pass.old 0 workload.now.run.nodes pass.new) }
{
    let nodes = workload.run.nodes();
    let mut passes = Vec::with_capacity(alloc, nodes)?;
    'dealing: for node in 0..nodes {
        let one = workload
            .fabric
            .deal_bare(alloc, pass, LatchId::new(node as u32))?;
        passes.push_reserved(one);
    }
    Ok(passes)
}

// So many workers, each with a turn, and one permit is left; a handle to steal from each worker's
// hints; and for each event the first arc from it.
fn make_workers_and_stealers<V: RunValues, C: Compute, G: Gate>(
    alloc: Global,
    workload: &Workload<'_, '_, V, C, G>,
    stile: &Turnstile,
    turn: &mut Turn,
    count: u32,
) -> Result<(Vec<Worker>, Vec<Stealer<u32>>, Vec<usize>), OutOfMemory>
    requires count { (0 < count) × (count ≤ 64) }
    requires fits { HasPassOfEach workload.now stile.now × IsTurnOf stile.now turn.old }
    requires turn { HasNone turn.old.view × (turn.old.view.permits ≡ count + 1) }
    requires made { turn.old.view.made ≡ 0 }

    ensures ok { IfOk result (λ r. All (IsWithin workload.now stile.now 0) r.0.items
        × (length r.0.items ≡ count)) }
    ensures ok_turn { OnOk result (IsTurnOf stile.now turn.new × HasNone turn.new.view
        × (turn.new.view.permits ≡ 1) × (turn.new.view.made ≡ 0)) }
{
    let arcs_from = arcs_from(alloc, workload.run)?;
    let workers = make_workers(alloc, workload, stile, turn, count)?;
    let stealers = stealers_of(alloc, &workers)?;
    Ok((workers, stealers, arcs_from))
}

// So many workers, each with a turn; one permit is left.
fn make_workers<V: RunValues, C: Compute, G: Gate>(
    alloc: Global,
    workload: &Workload<'_, '_, V, C, G>,
    stile: &Turnstile,
    turn: &mut Turn,
    count: u32,
) -> Result<Vec<Worker>, OutOfMemory>
    requires count { (0 < count) × (count ≤ 64) }
    requires fits { HasPassOfEach workload.now stile.now × IsTurnOf stile.now turn.old }
    requires turn { HasNone turn.old.view × (turn.old.view.permits ≡ count + 1) }
    requires made { turn.old.view.made ≡ 0 }

    ensures ok { IfOk result (λ v. All (IsWithin workload.now stile.now 0) v.items
        × (length v.items ≡ count)) }
    ensures ok_turn { OnOk result (IsTurnOf stile.now turn.new × HasNone turn.new.view
        × (turn.new.view.permits ≡ 1) × (turn.new.view.made ≡ 0)) }
{
    let borders = borders_of(alloc, workload, count)?;
    let mut workers = Vec::with_capacity(alloc, count as usize)?;
    'hiring: for number in 0..count {
        let at = number as usize;
        let part = RoundRobin::over(borders[at], borders[at + 1]);
        let (scratch, search_path) = make_search(alloc, workload, part)?;
        let own = stile.split(turn);
        workers.push_reserved(Worker {
            number,
            turn: own,
            scratch,
            search_path,
        });
    }
    Ok(workers)
}

// What a worker works in, and where it looks.
fn make_search<V: RunValues, C: Compute, G: Gate>(
    alloc: Global,
    workload: &Workload<'_, '_, V, C, G>,
    part: RoundRobin,
) -> Result<(Scratch, SearchPath), OutOfMemory>
    ensures { IfOk result (λ r. Remembers workload.now.memory r.0) }
{
    let scratch = workload.fabric.scratch(alloc)?;
    let search_path = search_path_of(alloc, part, workload.run.nodes())?;
    Ok((scratch, search_path))
}

// Where a worker looks: in its own part of the nodes, and in all of them.
fn search_path_of(
    alloc: Global,
    part: RoundRobin,
    nodes: usize,
) -> Result<SearchPath, OutOfMemory> {
    let hints = Hints::of(alloc)?;
    Ok(SearchPath {
        hints,
        part,
        all: RoundRobin::over(0, nodes),
        begins: vec![in alloc; 0u8; nodes]?,
        soon: false,
    })
}

// A handle to steal from each worker's hints.
fn stealers_of(alloc: Global, workers: &[Worker]) -> Result<Vec<Stealer<u32>>, OutOfMemory> {
    let mut stealers = Vec::with_capacity(alloc, workers.len())?;
    for i in 0..workers.len() {
        stealers.push_reserved(workers[i].search_path.hints.stealer()?);
    }
    Ok(stealers)
}
