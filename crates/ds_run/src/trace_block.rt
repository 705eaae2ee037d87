//! The lines of a block of turns, in parts that several workers make at once.
ghost use Rattle.std.specs.Prelude.{◌≡◌, ◌+◌, ◌*◌, ◌<◌, ◌≤◌, ◌^◌, List, IfSome, min};
ghost use Rattle.ds_base.specs.Values.{Row};
ghost use Rattle.ds_outside.specs.Pen.{Puts};
ghost use Rattle.ds_run.specs.TraceLines.{AreLinesOf, HasLineBefore};
ghost use Rattle.ds_run.specs.Finished.{IsFinishedOn};

use crate::line_sharing::LineSharing;
use crate::lines_text::LinesText;
use crate::stored_turns::StoredTurns;
use crate::trace_part::text_of;
use crate::trace_range::put_range;
use crate::trace_rows::{TraceRows, copy_stored};
use crate::turn_range::TurnRange;
use ds_outside::Pen;
use std::thread::{Threads, map_indices};

/// Writes the lines of the turns from one on, a part for each worker, and gives the turn behind
/// them. A part whose text found no memory is written here.
pub(crate) fn put_block<R: AllocGlobal + Threads + Sync, P: Pen>(
    sharing: &LineSharing<'_, R>,
    stored: &StoredTurns<'_, '_>,
    from: usize,
    line: &mut TraceRows,
    pen: &mut P,
) -> usize
    requires sharing { (0 < sharing.now.parts) × (sharing.now.parts ≤ 64)
        × (0 < sharing.now.turns) × (sharing.now.turns ≤ 65536) }
    requires stored { (vectors : List Row)
        × IsFinishedOn stored.now.plan.now stored.now.turns stored.now.recorded.now vectors }
    requires few { stored.now.first + stored.now.turns < 2 ^ 64 }
    requires from { from < stored.now.turns }
    requires line { HasLineBefore stored.now.plan.now stored.now.recorded.now stored.now.turns
        from line.old }

    ensures more { (from < result) × (result ≤ stored.now.turns) }
    ensures lines { AreLinesOf stored.now.plan.now stored.now.recorded.now stored.now.turns
        stored.now.first from result (Puts (P.writing pen.old) (P.writing pen.new)) }
    ensures line { HasLineBefore stored.now.plan.now stored.now.recorded.now stored.now.turns
        result line.new }
{
    let (alloc, last) = (sharing.threads.alloc(), stored.turns);
    let (parts, turns, room) = (sharing.parts, sharing.turns, sharing.room);
    let texts = map_indices(
        sharing.threads,
        alloc,
        parts,
        &|i| -> Option<LinesText>
            requires few { (i < 64) × (turns ≤ 65536) × (from ≤ last)
                × (last ≡ stored.now.turns) }
            requires stored { (vectors : List Row)
                × IsFinishedOn stored.now.plan.now stored.now.turns stored.now.recorded.now
                vectors }
            requires first { stored.now.first + stored.now.turns < 2 ^ 64 }
            ensures { IfSome result (λ text. AreLinesOf stored.entry.now.plan.now
                stored.entry.now.recorded.now stored.entry.now.turns stored.entry.now.first
                (min (from + i * turns) last) (min (from + (i + 1) * turns) last)
                (λ lines. text.bytes.items ≡ lines)) }
        { text_of(alloc, stored, part(from, i, turns, last), room) },
    );
    let Ok(texts) = texts else {
        let all = TurnRange {
            from,
            to: border(from, parts, turns, last),
        };
        put_range(stored, all, line, pen);
        return all.to;
    };
    for i in 0..parts {
        put_part(stored, part(from, i, turns, last), &texts[i], line, pen);
    }
    border(from, parts, turns, last)
}

// Where part i of the turns from one on begins, if each has so many turns and none goes on behind
// the last.
fn border(from: usize, i: usize, turns: usize, last: usize) -> usize
    requires { (i ≤ 64) × (turns ≤ 65536) }
    ensures { result ≡ min (from + i * turns) last }
{
    from.saturating_add(i * turns).min(last)
}

// The turns of part i.
fn part(from: usize, i: usize, turns: usize, last: usize) -> TurnRange
    requires { (i < 64) × (turns ≤ 65536) }
    ensures value { (result.from ≡ min (from + i * turns) last)
        × (result.to ≡ min (from + (i + 1) * turns) last) }
    ensures range { (result.from ≤ result.to) × (result.to ≤ last) }
{
    TurnRange {
        from: border(from, i, turns, last),
        to: border(from, i + 1, turns, last),
    }
}

// Writes the lines of a part, from its text if it has one.
fn put_part<P: Pen>(
    stored: &StoredTurns<'_, '_>,
    range: TurnRange,
    text: &Option<LinesText>,
    line: &mut TraceRows,
    pen: &mut P,
)
    requires stored { (vectors : List Row)
        × IsFinishedOn stored.now.plan.now stored.now.turns stored.now.recorded.now vectors }
    requires few { stored.now.first + stored.now.turns < 2 ^ 64 }
    requires range { (range.from ≤ range.to) × (range.to ≤ stored.now.turns) }
    requires text { IfSome text.now (λ text. AreLinesOf stored.now.plan.now
        stored.now.recorded.now stored.now.turns stored.now.first range.from range.to
        (λ lines. text.bytes.items ≡ lines)) }
    requires line { HasLineBefore stored.now.plan.now stored.now.recorded.now stored.now.turns
        range.from line.old }

    ensures lines { AreLinesOf stored.now.plan.now stored.now.recorded.now stored.now.turns
        stored.now.first range.from range.to (Puts (P.writing pen.old) (P.writing pen.new)) }
    ensures line { HasLineBefore stored.now.plan.now stored.now.recorded.now stored.now.turns
        range.to line.new }
{
    match text {
        Some(text) => {
            pen.put(text.bytes());
            if range.from < range.to {
                copy_stored(stored.plan.latches(), stored.recorded, range.to - 1, line);
            }
        }
        None => put_range(stored, range, line, pen),
    }
}
