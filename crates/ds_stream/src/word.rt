//! The bytes of a line without its comment and what is cut at its end: their fault, or their row.
ghost use Rattle.std.specs.Prelude.{◌≡◌, ◌∷◌, [], true, IfOk, IfNone};
ghost use Rattle.std.specs.List.{list_any};
ghost use Rattle.ds_lines.specs.Line.{is_blank, words_of};
ghost use Rattle.ds_rows.specs.Vector.{has_width as has_width_of, has_bits as has_bits_of};
ghost use Rattle.ds_rows.specs.Vector.{row_of as row_of_words};
ghost use Rattle.ds_stream.specs.Bounded.{fault_under};
ghost use Rattle.ds_stream.specs.Word.{IsCut};

use crate::StreamKind;
use ds_base::{OutOfMemory, Row3};
use ds_lines::blank;
use ds_rows::{are_bits, values_of};
use std::alloc::Global;

/// What is wrong with a line, where there may be so many vectors, and so many stand before it.
pub fn fault_of(most: u64, seen: u64, width: usize, line: &[u8]) -> Option<StreamKind>
    requires { IsCut line.now }
    ensures value { result ≡ fault_under most width seen (words_of line.now) }
    ensures one { IfNone result (words_of line.now ≡ line.now ∷ []) }
{
    if seen >= most {
        Some(StreamKind::TooMany(most))
    } else if !has_width(width, line) {
        Some(StreamKind::BadWidth)
    } else if !has_bits(width, line) {
        Some(StreamKind::BadBit)
    } else {
        None
    }
}

/// The row of a line that is one word.
#[tactic(auto, unfolding(ds_rows::specs::Vector::row_of))]
pub fn row_of(alloc: Global, width: usize, word: &[u8]) -> Result<Row3, OutOfMemory>
    requires { words_of word.now ≡ word.now ∷ [] }
    ensures { IfOk result (λ r. r ≡ row_of_words width (words_of word.now)) }
{
    if width == 0 {
        return Ok(Row3::of(Vec::new(alloc)));
    }
    let values = values_of(alloc, word)?;
    Ok(Row3::of(values))
}

// One word of the width; for width 0 the word `-`.
#[tactic(auto, unfolding(ds_rows::specs::Vector::has_width))]
fn has_width(width: usize, line: &[u8]) -> bool
    requires { IsCut line.now }
    ensures value { result ≡ has_width_of width (words_of line.now) }
    ensures one { result ≡ true → words_of line.now ≡ line.now ∷ [] }
{
    if has_blank(line) {
        false
    } else if width == 0 {
        line == b"-".as_slice()
    } else {
        line.len() == width
    }
}

// A blank stands between words.
fn has_blank(line: &[u8]) -> bool
    ensures { result ≡ list_any is_blank line.now }
{
    line.iter().any(|byte| blank(*byte))
}

// Each character of the word is a value.
#[tactic(auto, unfolding(ds_rows::specs::Vector::has_bits))]
fn has_bits(width: usize, word: &[u8]) -> bool
    requires { words_of word.now ≡ word.now ∷ [] }
    ensures { result ≡ has_bits_of width (words_of word.now) }
{
    width == 0 || are_bits(word)
}
