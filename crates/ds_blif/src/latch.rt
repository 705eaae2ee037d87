//! Latches.
ghost use Rattle.std.specs.Prelude.{◌≡◌, ◌<◌, length};
ghost use Rattle.ds_lines.specs.Words.{texts};
ghost use Rattle.ds_blif.specs.Form.{is_edge as is_edge_word, is_level as is_level_word};
ghost use Rattle.ds_blif.specs.Form.{is_init as is_init_word, is_latch_form, is_level_latch};
ghost use Rattle.ds_blif.specs.Form.{has_bad_init as has_bad_init_word};
ghost use Rattle.ds_blif.specs.Fault.{latch_fault as latch_fault_in};

use crate::fault::BlifKind;
use crate::word::is;
use ds_lines::word;

fn is_edge(word: &[u8]) -> bool
    ensures { result ≡ is_edge_word word.now }
{
    is(word, b"re") || is(word, b"fe")
}

fn is_level(word: &[u8]) -> bool
    ensures { result ≡ is_level_word word.now }
{
    is(word, b"ah") || is(word, b"al") || is(word, b"as")
}

fn is_init(word: &[u8]) -> bool
    ensures { result ≡ is_init_word word.now }
{
    is(word, b"0") || is(word, b"1") || is(word, b"2") || is(word, b"3")
}

#[tactic(auto, unfolding(crate::specs::Form::is_latch_form))]
fn has_latch_form(words: &[&[u8]]) -> bool
    ensures { result ≡ is_latch_form (texts words.now) }
{
    match words.len() {
        3 | 4 => true,
        5 | 6 => is_edge(word(words, 3)) || is_level(word(words, 3)),
        _ => false,
    }
}

#[tactic(auto, unfolding(crate::specs::Form::is_level_latch))]
fn has_level(words: &[&[u8]]) -> bool
    ensures { result ≡ is_level_latch (texts words.now) }
{
    words.len() >= 5 && is_level(word(words, 3))
}

#[tactic(auto, unfolding(crate::specs::Form::has_bad_init))]
fn has_bad_init(words: &[&[u8]]) -> bool
    ensures { result ≡ has_bad_init_word (texts words.now) }
{
    match words.len() {
        4 => !is_init(word(words, 3)),
        6 => !is_init(word(words, 5)),
        _ => false,
    }
}

/// The fault of a latch.
pub fn latch_fault(words: &[&[u8]]) -> Option<BlifKind>
    ensures { result ≡ latch_fault_in (texts words.now) }
{
    if !has_latch_form(words) {
        Some(BlifKind::BadWords)
    } else if has_level(words) {
        Some(BlifKind::LevelLatch)
    } else if has_bad_init(words) {
        Some(BlifKind::BadInit)
    } else {
        None
    }
}
