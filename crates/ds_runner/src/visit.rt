//! One visit to a node: its pass is taken, stepped, and given back.
ghost use Rattle.std.specs.Prelude.{◌≡◌, ◌<◌, ◌≤◌, ◌+◌, MatchOption};
ghost use Rattle.ds_base.specs.Scratch.{Remembers};
ghost use Rattle.ds_rule.specs.Rule.{seen};
ghost use Rattle.ds_runner.specs.TurnstileRule.{Alone};
ghost use Rattle.ds_runner.specs.Work.{HasPassOfEach, IsWorker, fired_count};

use crate::fired::Fired;
use crate::scheduler::Scheduler;
use crate::step_at_gate::pause_unless_done;
use crate::worker::Worker;
use crate::workload::Workload;
use ds_base::{LatchId, Scratch};
use ds_fabric::{Compute, Pass, Step};
use ds_outside::Gate;
use ds_rule::RunValues;

/// Takes the pass of the node, steps it, and once more where it fired and another firing is
/// allowed, and gives it back: behind an opening the closing of the same node is mostly due. It
/// fires `most` times at most.
pub fn visit<V: RunValues, C: Compute, G: Gate>(
    workload: &Workload<'_, '_, V, C, G>,
    scheduler: &Scheduler,
    worker: &mut Worker,
    node: usize,
    most: u64,
) -> Fired
    requires fits { HasPassOfEach workload.now scheduler.now.stile }
    requires worker { IsWorker workload.now scheduler.now.stile worker.old }
    requires near { node < workload.now.run.nodes }
    requires most { 0 < most }

    ensures worker { IsWorker workload.now scheduler.now.stile worker.new }
    ensures made { worker.new.turn.view.made ≡ worker.old.turn.view.made + fired_count result }
    ensures most { fired_count result ≤ most }
{
    // A run has fewer nodes than a `u32` counts.
    let _nodes = workload.run.nodes();
    let latch = LatchId::new(node as u32);
    let Some(mut pass) = scheduler.stile.take(&mut worker.turn, latch) else {
        return Fired {
            first: None,
            second: None,
        };
    };
    let fired = step_twice(workload, &mut pass, worker, node, most);
    scheduler.stile.give(&mut worker.turn, latch, pass);
    fired
}

// Steps the node, and once more where it fired and another firing is allowed.
fn step_twice<V: RunValues, C: Compute, G: Gate>(
    workload: &Workload<'_, '_, V, C, G>,
    pass: &mut Pass,
    worker: &mut Worker,
    node: usize,
    most: u64,
) -> Fired
    requires near { node < workload.now.run.nodes }
    requires alone { Alone workload.now.table_id workload.now.run node pass.old }
    requires remembers { Remembers workload.now.memory worker.old.scratch }
    requires most { 0 < most }

    ensures alone { Alone workload.now.table_id workload.now.run node pass.new }
    ensures fired { seen pass.new.view node ≡ seen pass.old.view node + fired_count result }
    ensures most { fired_count result ≤ most }
    ensures same { worker.new.turn ≡ worker.old.turn }
    ensures remembers { Remembers workload.now.memory worker.new.scratch }
{
    let first = step_once(workload, pass, worker.number, node, &mut worker.scratch);
    let second = if first.is_some() && most > 1 {
        step_once(workload, pass, worker.number, node, &mut worker.scratch)
    } else {
        None
    };
    Fired { first, second }
}

// Steps the node once, unless it is done, and pauses at the gate before it. The event that fired,
// if there is one.
fn step_once<V: RunValues, C: Compute, G: Gate>(
    workload: &Workload<'_, '_, V, C, G>,
    pass: &mut Pass,
    number: u32,
    node: usize,
    scratch: &mut Scratch,
) -> Option<usize>
    requires near { node < workload.now.run.nodes }
    requires alone { Alone workload.now.table_id workload.now.run node pass.old }
    requires remembers { Remembers workload.now.memory scratch.old }

    ensures alone { Alone workload.now.table_id workload.now.run node pass.new }
    ensures fired { MatchOption result (seen pass.new.view node ≡ seen pass.old.view node)
        (λ _. seen pass.new.view node ≡ seen pass.old.view node + 1) }
    ensures remembers { Remembers workload.now.memory scratch.new }
{
    if !pause_unless_done(workload.run, pass, number, node, workload.gate) {
        return None;
    }
    match workload
        .fabric
        .step_in(pass, LatchId::new(node as u32), scratch)
    {
        Step::Fired { event, .. } => Some(event.index()),
        Step::NotYet { .. } | Step::Done => None,
    }
}
