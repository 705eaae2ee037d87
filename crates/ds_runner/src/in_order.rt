//! Firing without a look at an arc, with a pass that holds all nodes: turn by turn each event fires
//! once, in an order in which each stands behind the sources of the arcs without tokens into it.
//! Where all events have fired in k turns, and those before an event once more, it is enabled.
ghost use Rattle.std.specs.Prelude.{◌≡◌, ◌≢◌, ◌<◌, ◌+◌, ℕ, IsTrue, length};
ghost use Rattle.ds_rule.specs.Run.{count, node_of};
ghost use Rattle.ds_rule.specs.Rule.{seen};
ghost use Rattle.ds_rule.specs.Sound.{IsSound};
ghost use Rattle.ds_fabric.specs.Showing.{Belongs};
ghost use Rattle.ds_runner.specs.FiringOrder.{IsDue, IsFiringOrder, StandsAt};
ghost use Rattle.ds_runner.specs.Work.{HasFrom, Moved, all_tickets};

use crate::complete::Caller;
use crate::workload::Workload;
use ds_base::{EventId, LatchId};
use ds_fabric::{Compute, Pass};
use ds_outside::Gate;
use ds_rule::{RunValues, TableRun};

/// Fires turn after turn in this order, until all is done or the caller has nothing left. Where
/// there is no order, or something has fired before, it fires nothing.
pub fn fire_turns<V: RunValues, C: Compute, G: Gate>(
    workload: &Workload<'_, '_, V, C, G>,
    pass: &mut Pass,
    order: &[EventId],
    caller: &mut Caller,
)
    requires sound { IsSound workload.now.run }
    requires fits { Belongs workload.now pass.old }
    requires all { HasFrom pass.old.view 0 }
    requires order { 0 < length order.now → IsFiringOrder workload.now.run order.now }
    ensures moved { Moved workload.now.memory pass.old pass.new }
    ensures fired { all_tickets pass.new.view + caller.new.quota_left
        ≡ all_tickets pass.old.view + caller.old.quota_left }
{
    if order.len() == 0 {
        return;
    }
    if !is_unfired(workload.run, pass) {
        return;
    }
    'turns: for turn in 0..workload.run.limit() {
        if !fire_turn(workload, pass, order, turn, caller) {
            return;
        }
    }
}

// Whether no node has fired.
fn is_unfired<V: RunValues>(run: &TableRun<V>, pass: &Pass) -> bool
    requires run { pass.now.view.run ≡ run.now }
    requires sound { IsSound run.now }
    requires all { HasFrom pass.now.view 0 }
    ensures { IsTrue result → (l : ℕ) → l < run.now.nodes → seen pass.now.view l ≡ 0 }
{
    'looking: for node in 0..run.nodes() {
        let fired = pass.fired(LatchId::new(node as u32));
        if fired > 0 {
            return false;
        }
    }
    true
}

// Fires each event once, in the turn after `turn` turns. False: the caller has nothing left.
fn fire_turn<V: RunValues, C: Compute, G: Gate>(
    workload: &Workload<'_, '_, V, C, G>,
    pass: &mut Pass,
    order: &[EventId],
    turn: u64,
    caller: &mut Caller,
) -> bool
    requires sound { IsSound workload.now.run }
    requires fits { Belongs workload.now pass.old }
    requires all { HasFrom pass.old.view 0 }
    requires order { IsFiringOrder workload.now.run order.now }
    requires turn { turn < workload.now.run.limit }
    requires stands { StandsAt workload.now.run pass.old.view order.now 0 turn }
    ensures moved { Moved workload.now.memory pass.old pass.new }
    ensures fired { all_tickets pass.new.view + caller.new.quota_left
        ≡ all_tickets pass.old.view + caller.old.quota_left }
    ensures turn { IsTrue result → StandsAt workload.now.run pass.new.view order.now 0 (turn + 1) }
{
    'events: for i in 0..order.len() {
        if caller.quota_left == 0 {
            return false;
        }
        fire_event(workload, pass, order[i], turn, caller);
    }
    true
}

// Fires an event that is due, in the turn after `turn` turns.
fn fire_event<V: RunValues, C: Compute, G: Gate>(
    workload: &Workload<'_, '_, V, C, G>,
    pass: &mut Pass,
    event: EventId,
    turn: u64,
    caller: &mut Caller,
)
    requires sound { IsSound workload.now.run }
    requires fits { Belongs workload.now pass.old }
    requires all { HasFrom pass.old.view 0 }
    requires due { IsDue workload.now.run pass.old.view event }
    requires turn { turn < workload.now.run.limit }
    requires quota_left { 0 < caller.old.quota_left }
    ensures moved { Moved workload.now.memory pass.old pass.new }
    ensures fired { all_tickets pass.new.view + caller.new.quota_left
        ≡ all_tickets pass.old.view + caller.old.quota_left }
    ensures once { count workload.now.run (seen pass.new.view) event
        ≡ count workload.now.run (seen pass.old.view) event + 1 }
    ensures others { (x : ℕ) → node_of workload.now.run x < workload.now.run.nodes → x ≢ event
        → count workload.now.run (seen pass.new.view) x
        ≡ count workload.now.run (seen pass.old.view) x }
{
    let number = event.index();
    let node = workload.run.node_of(number);
    workload.gate.pause(caller.number, number as u32, turn + 1);
    workload.fabric.fire_due(pass, LatchId::new(node as u32));
    caller.quota_left -= 1;
}
