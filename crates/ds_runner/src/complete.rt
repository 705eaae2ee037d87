//! What the caller does when all passes are back: it fires what is left, alone.
ghost use Rattle.std.specs.Prelude.{◌≡◌, ◌<◌, ◌≤◌, ◌+◌, ℕ, cond, false, length};
ghost use Rattle.ds_rule.specs.Run.{node_of, count};
ghost use Rattle.ds_rule.specs.Rule.{seen};
ghost use Rattle.ds_rule.specs.Sound.{IsSound};
ghost use Rattle.ds_rule.specs.Progress.{IsRunAccepted};
ghost use Rattle.ds_fabric.specs.Showing.{Belongs};
ghost use Rattle.ds_runner.specs.FiringOrder.{IsFiringOrder};
ghost use Rattle.ds_runner.specs.Work.{HasFrom, Moved, Advances, AdvancesBelow, all_tickets};

use crate::in_order::fire_turns;
use crate::step_at_gate::step_at_gate;
use crate::workload::Workload;
use ds_base::EventId;
use ds_fabric::{Compute, Pass, Step};
use ds_outside::Gate;
use ds_rule::RunValues;

/// The caller as one that fires: its number, and how often it may still fire.
#[derive(Clone, Copy)]
pub struct Caller {
    pub number: u32,
    pub quota_left: u64,
}

/// Fires each event as often as it may, with a pass that holds all nodes, until the caller has
/// nothing left: in this order, where there is one, and what that leaves by rounds.
pub fn complete<V: RunValues, C: Compute, G: Gate>(
    workload: &Workload<'_, '_, V, C, G>,
    pass: &mut Pass,
    order: &[EventId],
    caller: Caller,
)
    requires accepted { IsSound workload.now.run × IsRunAccepted workload.now.run }
    requires fits { Belongs workload.now pass.old }
    requires all { HasFrom pass.old.view 0 }
    requires order { 0 < length order.now → IsFiringOrder workload.now.run order.now }
    ensures moved { Moved workload.now.memory pass.old pass.new }
    ensures most { all_tickets pass.new.view ≤ all_tickets pass.old.view + caller.quota_left }
    ensures done { all_tickets pass.new.view < all_tickets pass.old.view + caller.quota_left
        → (e : ℕ) → node_of workload.now.run e < workload.now.run.nodes
        → workload.now.run.limit ≤ count workload.now.run (seen pass.new.view) e }
{
    let mut own = caller;
    fire_turns(workload, pass, order, &mut own);
    fire_rounds(workload, pass, own);
}

// The same by rounds over all nodes.
fn fire_rounds<V: RunValues, C: Compute, G: Gate>(
    workload: &Workload<'_, '_, V, C, G>,
    pass: &mut Pass,
    caller: Caller,
)
    requires accepted { IsSound workload.now.run × IsRunAccepted workload.now.run }
    requires fits { Belongs workload.now pass.old }
    requires all { HasFrom pass.old.view 0 }
    ensures moved { Moved workload.now.memory pass.old pass.new }
    ensures most { all_tickets pass.new.view ≤ all_tickets pass.old.view + caller.quota_left }
    ensures done { all_tickets pass.new.view < all_tickets pass.old.view + caller.quota_left
        → (e : ℕ) → node_of workload.now.run e < workload.now.run.nodes
        → workload.now.run.limit ≤ count workload.now.run (seen pass.new.view) e }
{
    let mut own = caller;
    'rounds: while own.quota_left > 0 {
        let busy = go_round(workload, pass, &mut own);
        if !busy {
            return;
        }
    }
}

// Steps each node, until the caller has nothing left. False: nothing fired, and every node is
// stuck.
fn go_round<V: RunValues, C: Compute, G: Gate>(
    workload: &Workload<'_, '_, V, C, G>,
    pass: &mut Pass,
    caller: &mut Caller,
) -> bool
    requires sound { IsSound workload.now.run }
    requires fits { Belongs workload.now pass.old }
    requires all { HasFrom pass.old.view 0 }
    requires quota_left { 0 < caller.old.quota_left }
    ensures moved { Moved workload.now.memory pass.old pass.new }
    ensures told { AdvancesBelow workload.now.run pass.old.view workload.now.run.nodes
        pass.new.view result }
    ensures fired { all_tickets pass.new.view + caller.new.quota_left
        ≡ all_tickets pass.old.view + caller.old.quota_left }
{
    let mut busy = false;
    'nodes: for node in 0..workload.run.nodes() {
        if fire_twice(workload, pass, caller, node) {
            if caller.quota_left == 0 {
                return true;
            }
            busy = true;
        }
    }
    busy
}

// Steps a node, and once more where it fired and the caller has something left: behind an opening
// the closing of the same node is mostly due. False: it is stuck.
fn fire_twice<V: RunValues, C: Compute, G: Gate>(
    workload: &Workload<'_, '_, V, C, G>,
    pass: &mut Pass,
    caller: &mut Caller,
    node: usize,
) -> bool
    requires sound { IsSound workload.now.run }
    requires fits { Belongs workload.now pass.old }
    requires all { HasFrom pass.old.view 0 × (node < workload.now.run.nodes) }
    requires quota_left { 0 < caller.old.quota_left }
    ensures moved { Moved workload.now.memory pass.old pass.new }
    ensures told { Advances workload.now.run pass.old.view node pass.new.view result }
    ensures fired { all_tickets pass.new.view + caller.new.quota_left
        ≡ all_tickets pass.old.view + caller.old.quota_left }
    ensures stuck { result ≡ false → 0 < caller.new.quota_left }
{
    if !fire_next(workload, pass, caller.number, node) {
        return false;
    }
    caller.quota_left -= 1;
    if caller.quota_left > 0 && fire_next(workload, pass, caller.number, node) {
        caller.quota_left -= 1;
    }
    true
}

// Steps a node. False: it is stuck.
fn fire_next<V: RunValues, C: Compute, G: Gate>(
    workload: &Workload<'_, '_, V, C, G>,
    pass: &mut Pass,
    number: u32,
    node: usize,
) -> bool
    requires sound { IsSound workload.now.run }
    requires fits { Belongs workload.now pass.old }
    requires all { HasFrom pass.old.view 0 × (node < workload.now.run.nodes) }
    ensures moved { Moved workload.now.memory pass.old pass.new }
    ensures told { Advances workload.now.run pass.old.view node pass.new.view result }
    ensures fired { all_tickets pass.new.view ≡ all_tickets pass.old.view + cond result 1 0 }
{
    match step_at_gate(workload, pass, number, node) {
        Step::Fired { .. } => true,
        Step::NotYet { .. } => false,
        Step::Done => false,
    }
}
