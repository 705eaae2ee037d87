//! What the caller does when the workers are back: it joins their turns, closes the turnstile, and
//! takes the passes in.
ghost use Rattle.std.specs.Prelude.{◌≡◌, ◌<◌, ◌≤◌, ◌+◌, All, length, sum_by};
ghost use Rattle.ds_fabric.specs.Showing.{Belongs};
ghost use Rattle.ds_runner.specs.TurnstileRule.{HasNone, base};
ghost use Rattle.ds_runner.specs.Shown.{IsTurnOf};
ghost use Rattle.ds_runner.specs.Work.{HasBetween, AreSingle, IsWorkerPool, made_of, all_tickets};

use crate::scheduler::Scheduler;
use crate::worker::Worker;
use crate::worker_pool::WorkerPool;
use crate::workload::Workload;
use crate::{Turn, Turnstile};
use ds_base::LatchId;
use ds_fabric::{Compute, Pass};
use ds_outside::Gate;
use ds_rule::RunValues;

/// Takes the passes of all nodes in, of workers who are back.
pub fn gather<V: RunValues, C: Compute, G: Gate>(
    workload: &Workload<'_, '_, V, C, G>,
    pass: &mut Pass,
    pool: WorkerPool,
)
    requires fits { Belongs workload.now pass.old }
    requires pool { IsWorkerPool workload.now pool }
    requires room { pass.old.many + workload.now.run.nodes ≤ pass.old.room }

    ensures fits { Belongs workload.now pass.new }
    ensures all { HasBetween pass.new.view 0 workload.now.run.nodes }
    ensures fired { all_tickets pass.new.view ≡ sum_by made_of pool.workers.items }
{
    let WorkerPool {
        scheduler,
        mut turn,
        workers,
        mut passes,
    } = pool;
    let Scheduler {
        stile,
        stealers: _,
        arcs_from: _,
    } = scheduler;
    join_all(&stile, &mut turn, workers);
    stile.close(turn, &mut passes);
    gather_all(workload, pass, passes);
}

// The turn takes in those of the workers.
fn join_all(stile: &Turnstile, turn: &mut Turn, mut workers: Vec<Worker>)
    requires fits { IsTurnOf stile.now turn.old × HasNone turn.old.view }
    requires workers { All (λ (w : Worker). IsTurnOf stile.now w.turn × HasNone w.turn.view
        × (w.turn.view.permits ≡ 1)) workers.items }

    ensures fits { IsTurnOf stile.now turn.new × HasNone turn.new.view }
    ensures permits { turn.new.view.permits
        ≡ turn.old.view.permits + length workers.items }
    ensures made { turn.new.view.made
        ≡ turn.old.view.made + sum_by made_of workers.items }
{
    'joining: while let Some(worker) = workers.pop() {
        let Worker {
            number: _,
            turn: own,
            scratch: _,
            search_path: _,
        } = worker;
        stile.join(turn, own);
    }
}

// The pass takes in those of all nodes.
fn gather_all<V: RunValues, C: Compute, G: Gate>(
    workload: &Workload<'_, '_, V, C, G>,
    pass: &mut Pass,
    mut passes: Vec<Pass>,
)
    requires fits { Belongs workload.now pass.old }
    requires passes { AreSingle workload.now passes.items
        × (length passes.items ≡ workload.now.run.nodes) }
    requires room { pass.old.many + length passes.items ≤ pass.old.room }

    ensures fits { Belongs workload.now pass.new }
    ensures all { HasBetween pass.new.view 0 workload.now.run.nodes }
    ensures fired { all_tickets pass.new.view ≡ base 0 passes.items }
{
    // A run has fewer nodes than a `u32` counts.
    let _nodes = workload.run.nodes();
    'taking: while let Some(one) = passes.pop() {
        // A pass has as many tickets of its node as the node has fired.
        let _fired = one.fired(LatchId::new(passes.len() as u32));
        workload.fabric.gather(pass, one);
    }
}
