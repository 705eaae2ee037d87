//! One line of a vector file: its fault, or its row.
ghost use Rattle.std.specs.Prelude.{◌≡◌, ◌<◌, map, length, IfOk};
ghost use Rattle.std.specs.List.{list_all};
ghost use Rattle.ds_rows.specs.Vector.{is_bit, value_of_character as value_of_byte};
ghost use Rattle.ds_rows.specs.Vector.{has_width as has_width_of, has_bits as has_bits_of};
ghost use Rattle.ds_rows.specs.Vector.{row_of as row_of_words, fault_of_vector as fault_of_words};

use crate::VectorKind;
use ds_base::{Limit, OutOfMemory, Row3, Value};
use std::alloc::{AllocError, Global};

/// What is wrong with a line, where so many vectors stand before it.
pub fn fault_of(width: usize, seen: usize, words: &[&[u8]]) -> Option<VectorKind>
    requires { 0 < length words.now }
    ensures { result ≡ fault_of_words width seen (map (λ w. w.now) words.now) }
{
    if seen as u64 >= Limit::Vectors.most() {
        Some(VectorKind::TooMany(Limit::Vectors))
    } else if !has_width(width, words) {
        Some(VectorKind::BadWidth)
    } else if !has_bits(width, words) {
        Some(VectorKind::BadBit)
    } else {
        None
    }
}

/// The row of a line.
#[tactic(auto, unfolding(crate::specs::Vector::row_of))]
pub fn row_of(alloc: Global, width: usize, words: &[&[u8]]) -> Result<Row3, OutOfMemory>
    requires { 0 < length words.now }
    ensures { IfOk result (λ r. r ≡ row_of_words width (map (λ w. w.now) words.now)) }
{
    if width == 0 {
        return Ok(Row3::of(Vec::new(alloc)));
    }
    let values = values_of(alloc, words[0])?;
    Ok(Row3::of(values))
}

// One word of the width; for width 0 the word `-`.
#[tactic(auto, unfolding(crate::specs::Vector::has_width))]
fn has_width(width: usize, words: &[&[u8]]) -> bool
    requires { 0 < length words.now }
    ensures { result ≡ has_width_of width (map (λ w. w.now) words.now) }
{
    let word = words[0];
    if words.len() != 1 {
        false
    } else if width == 0 {
        word == b"-".as_slice()
    } else {
        word.len() == width
    }
}

// Each character of the word is a value.
#[tactic(auto, unfolding(crate::specs::Vector::has_bits))]
fn has_bits(width: usize, words: &[&[u8]]) -> bool
    requires { 0 < length words.now }
    ensures { result ≡ has_bits_of width (map (λ w. w.now) words.now) }
{
    width == 0 || are_bits(words[0])
}

/// Whether each byte is `0`, `1` or `x`.
pub fn are_bits(word: &[u8]) -> bool
    ensures { result ≡ list_all is_bit word.now }
{
    word.iter()
        .all(|byte| *byte == b'0' || *byte == b'1' || *byte == b'x')
}

/// The values of such bytes.
pub fn values_of(alloc: Global, word: &[u8]) -> Result<Vec<Value>, AllocError>
    ensures { IfOk result (λ values. values.items ≡ map value_of_byte word.now) }
{
    let values = word.iter().map(|byte| value_of(*byte)).collect(alloc)?;
    Ok(values)
}

// The value of such a byte.
fn value_of(byte: u8) -> Value
    ensures { result ≡ value_of_byte byte }
{
    if byte == b'1' {
        Value::One
    } else if byte == b'x' {
        Value::Unknown
    } else {
        Value::Zero
    }
}
