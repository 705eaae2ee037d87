//! What a line says.
ghost use Rattle.std.specs.Prelude.{◌≡◌, IfOk, map, take, drop, ◌<◌, ◌-◌, length};
ghost use Rattle.std.specs.List.{after_first};
ghost use Rattle.ds_lines.specs.Words.{texts};
ghost use Rattle.ds_blif.specs.Form.{is_equals, output_of};
ghost use Rattle.ds_blif.specs.Parts.{Parts, plane_of as plane_of_words, is_on as is_on_words};
ghost use Rattle.ds_blif.specs.Parts.{table_of as table_of_words, edge_of_type as edge_of_word};
ghost use Rattle.ds_blif.specs.Parts.{control_of as control_of_word, digit_of as digit_of_word};
ghost use Rattle.ds_blif.specs.Parts.{initial_of as initial_of_words, latch_of as latch_of_words};
ghost use Rattle.ds_blif.specs.Parts.{pair_of as pair_of_word, use_of as use_of_words};

use crate::subckt::{formal, place_of_equals};
use crate::word::{behind, is, word_or_none};
use ds_base::{OutOfMemory, Seq};
use ds_design::{Edge, LatchText, Pair, TableText, UseText, Word, Words};
use std::alloc::Global;

/// The characters of a row's inputs.
pub fn plane_of<'a>(words: &[&'a [u8]]) -> Word<'a>
    ensures { result ≡ plane_of_words (texts words.now) }
{
    Word::of(if words.len() == 1 {
        &[]
    } else {
        word_or_none(words, 0)
    })
}

/// Whether the output of a row is 1.
pub fn is_on(words: &[&[u8]]) -> bool
    requires { 0 < length words.now }
    ensures { result ≡ is_on_words (texts words.now) }
{
    is(word_or_none(words, words.len() - 1), b"1")
}

fn edge_of(word: &[u8]) -> Edge
    ensures { result ≡ edge_of_word word.now }
{
    if is(word, b"re") {
        Edge::Rising
    } else {
        Edge::Falling
    }
}

fn control_of<'a>(word: &'a [u8]) -> Option<Word<'a>>
    ensures { result ≡ control_of_word word.entry.now }
{
    if is(word, b"NIL") {
        None
    } else {
        Some(Word::of(word))
    }
}

fn digit_of(word: &[u8]) -> u8
    ensures { result ≡ digit_of_word word.now }
{
    if word.is_empty() {
        0
    } else {
        word[0].saturating_sub(b'0')
    }
}

fn initial_of(words: &[&[u8]]) -> u8
    ensures { result ≡ initial_of_words (texts words.now) }
{
    match words.len() {
        4 => digit_of(word_or_none(words, 3)),
        6 => digit_of(word_or_none(words, 5)),
        _ => 3,
    }
}

/// The latch of a line.
pub fn latch_of<'a>(words: &[&'a [u8]]) -> LatchText<'a>
    ensures { result ≡ latch_of_words (texts words.now) }
{
    let data_net = Word::of(word_or_none(words, 1));
    let output = Word::of(word_or_none(words, 2));
    let initial = initial_of(words);
    if 4 < words.len() {
        LatchText {
            data_net,
            output,
            edge: Some(edge_of(word_or_none(words, 3))),
            control: control_of(word_or_none(words, 4)),
            initial,
        }
    } else {
        LatchText {
            data_net,
            output,
            edge: None,
            control: None,
            initial,
        }
    }
}

fn pair_of<'a>(word: &'a [u8]) -> Pair<'a>
    ensures { result ≡ pair_of_word word.entry.now }
{
    let place = place_of_equals(word);
    Pair {
        formal: Word::of(formal(word)),
        actual: Word::of(if place < word.len() {
            &word[place + 1..]
        } else {
            &[]
        }),
    }
}

/// The use of a model of a line.
pub fn use_of<'a>(alloc: Global, words: &[&'a [u8]]) -> Result<UseText<'a>, OutOfMemory>
    ensures { IfOk result (λ u. u ≡ use_of_words (texts words.now)) }
{
    let pairs = pairs_of(alloc, behind(words, 2))?;
    Ok(UseText {
        model: Word::of(word_or_none(words, 1)),
        pairs,
    })
}

fn pairs_of<'a>(alloc: Global, words: &[&'a [u8]]) -> Result<Seq<Pair<'a>>, OutOfMemory>
    ensures { IfOk result (λ p. p ≡ map pair_of_word (texts words.now)) }
{
    let mut pairs = Vec::with_capacity(alloc, words.len())?;
    for word in words {
        pairs.push(pair_of(*word))?;
    }
    Ok(Seq::of(pairs))
}

// The names of a table's inputs.
fn inputs_of<'w, 'a>(words: &'w [&'a [u8]]) -> &'w [&'a [u8]]
    ensures { texts result.now ≡ take (length words.now - 2) (drop 1 (texts words.now)) }
{
    if words.len() < 2 {
        &[]
    } else {
        &words[1..words.len() - 1]
    }
}

/// The table of a line, with these rows.
pub fn table_of<'a>(words: &'a [&'a [u8]], rows: Seq<Word<'a>>, on: bool) -> TableText<'a>
    requires { 0 < length words.now }
    ensures { result ≡ record {
      inputs = take (length words.entry.now - 2) (drop 1
          (texts words.entry.now));
      output = output_of (texts words.entry.now);
      rows = rows.entry;
      on = on;
    } }
{
    TableText {
        inputs: Words::of(inputs_of(words)),
        output: Word::of(word_or_none(words, words.len() - 1)),
        rows,
        on,
    }
}
