//! Vectors as they are read, line by line.
ghost use Rattle.std.specs.Prelude.{◌≡◌, ◌++◌, ◌∷◌, ◌<◌, [], length, map, OnOk};
ghost use Rattle.ds_base.specs.Refusal.{IsMeant};
ghost use Rattle.ds_rows.specs.Vector.{vectors_of, row_of as row_of_words};

use crate::VectorRefusal;
use crate::vector::{fault_of, row_of};
use ds_base::{OutOfMemory, Refusal, Row3, Seq};
use ds_design::Vectors;
use ds_lines::{At, Lines};
use std::alloc::Global;

/// The vectors of a text: each line is one word with a character, `0`, `1` or `x`, for each column
/// in order, and the word `-` where there is no column. Refused with the first faulty line; on one
/// line too many vectors come first, then its width, then its characters.
pub fn read_vectors(
    alloc: Global,
    lines: &Lines<'_>,
    width: usize,
) -> Result<Vectors, VectorRefusal>
    ensures { IsMeant result (vectors_of width lines.now) }
{
    let mut rows = Seq::new(alloc);
    for i in 0..lines.count() {
        let words = lines.line(i);
        if let Some(kind) = fault_of(width, i, words) {
            let line = lines.number(i);
            return Err(Refusal::Fault(At { line, kind }));
        }
        push_row(alloc, width, words, &mut rows)?;
    }
    Ok(Vectors::of(width, rows))
}

// Puts the row of a line behind others.
fn push_row(
    alloc: Global,
    width: usize,
    words: &[&[u8]],
    rows: &mut Seq<Row3>,
) -> Result<(), OutOfMemory>
    requires { 0 < length words.now }
    ensures { OnOk result (rows.new
        ≡ rows.old ++ row_of_words width (map (λ w. w.now) words.now) ∷ []) }
{
    rows.push(row_of(alloc, width, words)?)?;
    Ok(())
}
