//! The text of a state, as the last stage of a job.
ghost use Rattle.std.specs.Prelude.{◌≡◌, true};
ghost use Rattle.ds_fire.specs.Snapshot.{split_of};
ghost use Rattle.ds_replay.specs.Kept.{IsKeptText};
ghost use Rattle.ds_stage.specs.Ends.{Ends, Never, UnlessUnwritten, output_between};
ghost use Rattle.ds_stage.specs.Stage.{giving};

use crate::stop::Stop;
use ds_design::Vectors;
use ds_latch::Plan;
use ds_outside::Sink;
use ds_replay::{AfterLog, Rooms, write_kept};
use std::alloc::Global;

/// Writes a line for each register, and the line of the firings, once a log has been fired; where
/// what open latches show is wanted, then a line for each open node. All memory is taken before the
/// first byte is written.
pub fn write_state<O: Sink>(
    alloc: Global,
    plan: &Plan<'_>,
    vectors: &Vectors,
    after: &AfterLog<'_>,
    out: &mut O,
) -> Result<(), Stop>
    requires plan { after.now.state.now.planned ≡ plan.now }
    requires vectors { after.now.state.now.vectors ≡ vectors.now.rows }
    requires slack { after.now.transparent ≡ true → (split_of after.now.state.now).slack ≡ 0 }
    ensures value { Ends (giving (IsKeptText after.now.transparent after.now.state.now
        after.now.fired)) Never (output_between O.written O.faults out.old out.new) result }

    ensures same_writes { UnlessUnwritten result (O.faults out.new ≡ O.faults out.old) }
{
    let latches = plan.latches();
    let rooms = Rooms::of(alloc, latches, after)?;
    let most = plan.most_firings(vectors);
    match write_kept(latches, &rooms, after, most, out) {
        Ok(()) => Ok(()),
        Err(_) => Err(Stop::Unwritten),
    }
}
