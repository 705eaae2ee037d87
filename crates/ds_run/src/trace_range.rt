//! The lines of some turns of what the nodes of a plan have stored. The contracts alone speak of
//! the vectors: the code has their number.
ghost use Rattle.std.specs.Prelude.{◌≡◌, ◌+◌, ◌<◌, ◌≤◌, ◌^◌, List};
ghost use Rattle.ds_base.specs.Values.{Row};
ghost use Rattle.ds_outside.specs.Pen.{Puts};
ghost use Rattle.ds_run.specs.TraceLines.{AreLinesOf, HasLineBefore};
ghost use Rattle.ds_run.specs.Finished.{IsFinishedOn};

use crate::stored_turns::StoredTurns;
use crate::trace_rows::{TraceRows, copy_stored};
use crate::turn_range::TurnRange;
use ds_latch::Node;
use ds_outside::Pen;
use ds_rows::put_trace_line;

/// Writes the lines of these turns by a pen. `line` has the registers before the first of them, and
/// then those after the last one.
pub(crate) fn put_range<P: Pen>(
    stored: &StoredTurns<'_, '_>,
    range: TurnRange,
    line: &mut TraceRows,
    pen: &mut P,
)
    requires stored { (vectors : List Row)
        × IsFinishedOn stored.now.plan.now stored.now.turns stored.now.recorded.now vectors }
    requires few { stored.now.first + stored.now.turns < 2 ^ 64 }
    requires range { (range.from ≤ range.to) × (range.to ≤ stored.now.turns) }
    requires line { HasLineBefore stored.now.plan.now stored.now.recorded.now stored.now.turns
        range.from line.old }

    ensures lines { AreLinesOf stored.now.plan.now stored.now.recorded.now stored.now.turns
        stored.now.first range.from range.to (Puts (P.writing pen.old) (P.writing pen.new)) }
    ensures line { HasLineBefore stored.now.plan.now stored.now.recorded.now stored.now.turns
        range.to line.new }
{
    for k in range.from..range.to {
        stored.recorded.row(Node::Out.latch(), k, &mut line.outputs);
        put_trace_line(stored.first + k as u64, &line.outputs, &line.registers, pen);
        copy_stored(stored.plan.latches(), stored.recorded, k, line);
    }
}
