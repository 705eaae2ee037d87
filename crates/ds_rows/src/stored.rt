//! One value of each of some rows, which stand as words of 32 values.
ghost use Rattle.std.specs.Prelude.{◌≡◌, ◌+◌, ◌*◌, ◌/◌, ◌<◌, ◌≤◌, List, length, map, take, drop};
ghost use Rattle.ds_base.specs.Values.{Row};
ghost use Rattle.ds_base.specs.Word.{code_of};
ghost use Rattle.ds_base.specs.declared.value.Value.{Value};
ghost use Rattle.ds_design.specs.Trace.{value_text, values_text};
ghost use Rattle.ds_outside.specs.Pen.{Puts};
ghost use Rattle.ds_rows.specs.Log.{at_place, value_words};

use ds_outside::Pen;

/// Of rows whose value words stand one row after the other, so many words a row, writes the value
/// of each at a place; where there is no row, `-`. It reads one word a row.
pub fn put_stored<P: Pen>(words: &[u64], words_a_row: usize, place: usize, pen: &mut P)
    requires { place < 32 * words_a_row }
    ensures { (rows : List Row) → words.now ≡ value_words words_a_row rows
        → Puts (P.writing pen.old) (P.writing pen.new) (values_text (at_place place rows)) }
{
    let rows = words.len() / words_a_row;
    if rows == 0 {
        pen.put(b"-");
        return;
    }
    let mut piece = [0; 64];
    let mut done = 0;
    'writing: while done < rows {
        let count = (rows - done).min(64);
        fill(&mut piece[..count], words, words_a_row, place, done);
        pen.put(&piece[..count]);
        done += count;
    }
}

// Fills a piece with the characters of the values at a place, from a row on.
fn fill(piece: &mut [u8], words: &[u64], words_a_row: usize, place: usize, from: usize)
    requires place { place < 32 * words_a_row }
    requires within { from + length piece.old ≤ length words.now / words_a_row }
    ensures { (rows : List Row) → words.now ≡ value_words words_a_row rows → piece.new
        ≡ map value_text (take (length piece.old) (drop from (at_place place rows))) }
{
    let word = place / 32;
    let behind = 2 * (place % 32);
    for i in 0..piece.len() {
        let at = (from + i) * words_a_row + word;
        let rest = words[at] >> behind;
        piece[i] = character_of(rest % 4);
    }
}

// The value with this code, as it is printed.
fn character_of(code: u64) -> u8
    ensures { (value : Value) → code ≡ code_of value → result ≡ value_text value }
{
    match code {
        0 => b'0',
        1 => b'1',
        _ => b'x',
    }
}
