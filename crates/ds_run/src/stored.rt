//! What a latch has stored, as it is written.
ghost use Rattle.std.specs.Prelude.{◌≡◌, ◌+◌, ◌*◌, ◌<◌, ◌≤◌, length, map};
ghost use Rattle.std.specs.List.{range_with_len};
ghost use Rattle.ds_design.specs.Trace.{values_text};
ghost use Rattle.ds_outside.specs.Pen.{Puts};
ghost use Rattle.ds_rows.specs.Log.{at_place, value_words};
ghost use Rattle.ds_rule.specs.Run.{closing};
ghost use Rattle.ds_rule.specs.Rule.{tickets};
ghost use Rattle.ds_rule.specs.Words.{width};
ghost use Rattle.ds_run.specs.LatchRows.{rows_stored, word_values};

use ds_base::LatchId;
use ds_fabric::Record;
use ds_outside::Pen;
use ds_rows::put_stored;

/// Writes the value at a place of each row that a latch has stored; where there is no row, `-`.
pub fn put_stored_values<P: Pen>(recorded: &Record, latch: LatchId, place: usize, pen: &mut P)
    requires near { latch < recorded.now.shown.view.run.design_nodes }
    requires inside { place < 32 * width recorded.now.shown.view.run latch }
    ensures { Puts (P.writing pen.old) (P.writing pen.new)
        (values_text (at_place place (rows_stored recorded.now latch))) }
{
    let rows = recorded.stored(latch);
    if rows == 0 {
        pen.put(b"-");
        return;
    }
    let mut piece = [0; 64];
    let mut done = 0;
    'writing: while done < rows {
        let count = (rows - done).min(64);
        copy_stored(&mut piece[..count], recorded, latch, place / 32, done);
        put_stored(&piece[..count], 1, place % 32, pen);
        done += count;
    }
}

// Fills a piece with word i of each stored row, from a row on.
fn copy_stored(piece: &mut [u64], recorded: &Record, latch: LatchId, i: usize, from: usize)
    requires near { latch < recorded.now.shown.view.run.design_nodes }
    requires inside { i < width recorded.now.shown.view.run latch }
    requires within { from + length piece.old
        ≤ length (tickets recorded.now.shown.view (closing latch)) }
    requires few { from + length piece.old < 18446744073709551616 }
    ensures same { length piece.new ≡ length piece.old }
    ensures value { piece.new ≡ value_words 1
        (map (word_values recorded.now.shown.view.run latch i)
        (range_with_len (from + 1) (length piece.old))) }
{
    for k in 0..piece.len() {
        piece[k] = recorded.word(latch, from + k, i);
    }
}
