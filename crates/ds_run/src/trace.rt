//! The trace of what the nodes of a plan have stored. The contracts alone speak of the vectors: the
//! code has their number.
ghost use Rattle.std.specs.Prelude.{◌≡◌, ◌+◌, ◌<◌, ◌≤◌, ◌^◌, List};
ghost use Rattle.ds_base.specs.Values.{Row};
ghost use Rattle.ds_clocked.specs.Appends.{PutsLines, WritesLines};
ghost use Rattle.ds_run.specs.TraceRows.{HasLine};
ghost use Rattle.ds_run.specs.Finished.{IsFinishedOn};

use crate::WorkerSettings;
use crate::line_sharing::sharing_of;
use crate::stored_turns::StoredTurns;
use crate::trace_block::put_block;
use crate::trace_range::put_range;
use crate::trace_rows::TraceRows;
use crate::turn_range::TurnRange;
use ds_outside::{Buffered, Pen, Sink, WriteFault};
use std::thread::Threads;

/// Writes the lines of all turns by way of a buffer, and leaves the registers after the last one.
/// If there are several workers, each makes the lines of some turns, if that pays.
pub fn write_turns<R: AllocGlobal + Threads + Sync, G, O: Sink>(
    workers: &WorkerSettings<'_, R, G>,
    stored: &StoredTurns<'_, '_>,
    line: &mut TraceRows,
    out: &mut O,
) -> Result<(), WriteFault>
    requires jobs { (0 < workers.now.jobs) × (workers.now.jobs ≤ 64) }
    requires stored { (vectors : List Row)
        × IsFinishedOn stored.now.plan.now stored.now.turns stored.now.recorded.now vectors }
    requires few { stored.now.first + stored.now.turns < 2 ^ 64 }
    requires line { HasLine stored.now.plan.now.split line.old }
    requires registers { line.old.registers ≡ stored.now.plan.now.split.initial }
    ensures { (vectors : List Row)
        → IsFinishedOn stored.now.plan.now stored.now.turns stored.now.recorded.now vectors
        → WritesLines result stored.now.plan.now.split.circuit stored.now.first
        stored.now.plan.now.split.initial vectors line.new.registers
        (O.written out.old) (O.written out.new) (O.faults out.old) (O.faults out.new) }
{
    let mut pen = Buffered::new(out);
    put_turns(workers, stored, line, &mut pen);
    pen.finish()
}

// The same by a pen.
fn put_turns<R: AllocGlobal + Threads + Sync, G, P: Pen>(
    workers: &WorkerSettings<'_, R, G>,
    stored: &StoredTurns<'_, '_>,
    line: &mut TraceRows,
    pen: &mut P,
)
    requires jobs { (0 < workers.now.jobs) × (workers.now.jobs ≤ 64) }
    requires stored { (vectors : List Row)
        × IsFinishedOn stored.now.plan.now stored.now.turns stored.now.recorded.now vectors }
    requires few { stored.now.first + stored.now.turns < 2 ^ 64 }
    requires line { HasLine stored.now.plan.now.split line.old }
    requires registers { line.old.registers ≡ stored.now.plan.now.split.initial }
    ensures { (vectors : List Row)
        → IsFinishedOn stored.now.plan.now stored.now.turns stored.now.recorded.now vectors
        → PutsLines (P.writing pen.old) (P.writing pen.new)
        stored.now.plan.now.split.circuit stored.now.first stored.now.plan.now.split.initial
        vectors line.new.registers }
{
    let sharing = sharing_of(workers, stored);
    if sharing.parts < 2 {
        let all = TurnRange {
            from: 0,
            to: stored.turns,
        };
        put_range(stored, all, line, pen);
        return;
    }
    let mut done = 0;
    'blocks: while done < stored.turns {
        done = put_block(&sharing, stored, done, line, pen);
    }
}
