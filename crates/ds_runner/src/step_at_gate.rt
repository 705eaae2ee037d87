//! One step of a node, the gate before it included.
ghost use Rattle.std.specs.Prelude.{◌≡◌, ◌<◌, ◌≤◌, ℕ, true, false};
ghost use Rattle.ds_rule.specs.Run.{next, turns};
ghost use Rattle.ds_rule.specs.Rule.{holds, seen};
ghost use Rattle.ds_rule.specs.Sound.{IsSound};
ghost use Rattle.ds_fabric.specs.Showing.{Belongs, Stays};
ghost use Rattle.ds_fabric.specs.Stepped.{Stepped, done};

use crate::workload::Workload;
use ds_base::LatchId;
use ds_fabric::{Compute, Pass, Step};
use ds_outside::Gate;
use ds_rule::{RunValues, TableRun};

/// Steps a node once, unless it is done, and pauses at the gate before it.
pub fn step_at_gate<V: RunValues, C: Compute, G: Gate>(
    workload: &Workload<'_, '_, V, C, G>,
    pass: &mut Pass,
    number: u32,
    node: usize,
) -> Step
    requires fits { Belongs workload.now pass.old }
    requires held { (holds pass.old.view node ≡ true) × (node < workload.now.run.nodes) }

    ensures same { Stays workload.now.memory pass.old pass.new }
    ensures step { Stepped workload.now.run pass.old.view node result pass.new.view }
{
    if pause_unless_done(workload.run, pass, number, node, workload.gate) {
        workload.fabric.step(pass, LatchId::new(node as u32))
    } else {
        Step::Done
    }
}

/// Comes to a node: pauses at the gate, unless the node is done. False: it is done.
pub fn pause_unless_done<V: RunValues, G: Gate>(
    run: &TableRun<V>,
    pass: &Pass,
    number: u32,
    node: usize,
    gate: &G,
) -> bool
    requires sound { IsSound run.now }
    requires held { (holds pass.now.view node ≡ true) × (node < run.now.nodes) }
    ensures { result ≡ false → run.now.limit ≤ done run.now pass.now.view node }
{
    let fired = pass.fired(LatchId::new(node as u32));
    let event = run.next(node, fired);
    let turns = run.turns(event, fired);
    if turns >= run.limit() {
        return false;
    }
    gate.pause(number, event as u32, turns + 1);
    true
}
