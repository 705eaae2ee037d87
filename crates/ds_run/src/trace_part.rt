//! The text of some turns, which a worker makes for itself.
ghost use Rattle.std.specs.Prelude.{◌≡◌, ◌+◌, ◌<◌, ◌≤◌, ◌^◌, List, IfOk, IfSome};
ghost use Rattle.ds_base.specs.Values.{Row};
ghost use Rattle.ds_run.specs.TraceRows.{HasLine};
ghost use Rattle.ds_run.specs.TraceLines.{AreLinesOf, AreRegistersBefore};
ghost use Rattle.ds_run.specs.Finished.{IsFinishedOn};

use crate::lines_text::LinesText;
use crate::stored_turns::StoredTurns;
use crate::trace_range::put_range;
use crate::trace_rows::{TraceRows, copy_stored};
use crate::turn_range::TurnRange;
use ds_base::OutOfMemory;
use ds_outside::OnSink;
use std::alloc::Global;

/// The lines of these turns, in room for so many bytes. None: memory was refused.
pub(crate) fn text_of(
    alloc: Global,
    stored: &StoredTurns<'_, '_>,
    range: TurnRange,
    room: usize,
) -> Option<LinesText>
    requires stored { (vectors : List Row)
        × IsFinishedOn stored.now.plan.now stored.now.turns stored.now.recorded.now vectors }
    requires few { stored.now.first + stored.now.turns < 2 ^ 64 }
    requires range { (range.from ≤ range.to) × (range.to ≤ stored.now.turns) }
    ensures { IfSome result (λ text. AreLinesOf stored.now.plan.now stored.now.recorded.now
        stored.now.turns stored.now.first range.from range.to
        (λ lines. text.bytes.items ≡ lines)) }
{
    let Ok(mut line) = line_before(alloc, stored, range.from) else {
        return None;
    };
    let Ok(mut text) = LinesText::with_room(alloc, room) else {
        return None;
    };
    let mut pen = OnSink::new(&mut text);
    put_range(stored, range, &mut line, &mut pen);
    match pen.finish() {
        Ok(()) => Some(text),
        Err(_) => None,
    }
}

// The rows of a line, with the registers before a turn.
fn line_before(
    alloc: Global,
    stored: &StoredTurns<'_, '_>,
    turn: usize,
) -> Result<TraceRows, OutOfMemory>
    requires stored { (vectors : List Row)
        × IsFinishedOn stored.now.plan.now stored.now.turns stored.now.recorded.now vectors }
    requires turn { turn ≤ stored.now.turns }
    ensures line { IfOk result (HasLine stored.now.plan.now.split) }
    ensures registers { IfOk result (λ line. AreRegistersBefore stored.now.plan.now
        stored.now.recorded.now stored.now.turns turn line.registers) }
{
    let mut line = TraceRows::of(alloc, stored.plan.latches())?;
    if turn > 0 {
        copy_stored(stored.plan.latches(), stored.recorded, turn - 1, &mut line);
    }
    Ok(line)
}
