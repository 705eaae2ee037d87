//! How often the caller may fire once the workers are back.
ghost use Rattle.std.specs.Prelude.{◌≡◌, ◌-◌};
ghost use Rattle.ds_rule.specs.Sound.{IsSound};
ghost use Rattle.ds_runner.specs.Work.{HasFrom, IsRest, all_tickets};

use ds_base::LatchId;
use ds_fabric::Pass;
use ds_rule::{RunValues, TableRun};

/// What is left of a quota, with a pass that holds all nodes; without a quota more than a run has.
pub fn quota_left<V: RunValues>(run: &TableRun<V>, pass: &Pass, quota: Option<u64>) -> u64
    requires run { (pass.now.view.run ≡ run.now) × IsSound run.now }
    requires all { HasFrom pass.now.view 0 }
    ensures { IsRest quota (all_tickets pass.now.view) result }
{
    match quota {
        None => u64::MAX,
        Some(most) => left_of(run, pass, most),
    }
}

// The quota without what has fired.
fn left_of<V: RunValues>(run: &TableRun<V>, pass: &Pass, quota: u64) -> u64
    requires run { pass.now.view.run ≡ run.now }
    requires sound { IsSound run.now }
    requires all { HasFrom pass.now.view 0 }
    ensures { result ≡ quota - all_tickets pass.now.view }
{
    let mut left = quota;
    'events: for event in 0..run.nodes() + run.design_nodes() {
        let fired = pass.fired(LatchId::new(run.node_of(event) as u32));
        left = left.saturating_sub(run.turns(event, fired));
    }
    left
}
