//! Words of a line.
ghost use Rattle.std.specs.Prelude.{◌≡◌, ◌≤◌, ◌-◌, ◌<◌, length, take, drop};
ghost use Rattle.ds_astg.specs.Word.{first_byte as first_in, last_byte as last_in};
ghost use Rattle.ds_astg.specs.Word.{without_last as front_of};
ghost use Rattle.ds_astg.specs.Word.{has_slash as slash_in, has_reserved as reserved_in};
ghost use Rattle.ds_astg.specs.Word.{is_reserved as is_reserved_byte};
ghost use Rattle.ds_astg.specs.Word.{is_signed as signed, is_signal as may_be_signal};
ghost use Rattle.ds_astg.specs.Word.{fall_of as falls};
ghost use Rattle.ds_astg.specs.Node.{name_in as name_of_word};
ghost use Rattle.std.specs.List.{before_first};
ghost use Rattle.ds_astg.specs.Word.{is_byte};

use ds_lines::place_of;

/// The first byte, 0 where there is none.
pub fn first_byte(word: &[u8]) -> u8
    ensures { result ≡ first_in word.now }
{
    if word.is_empty() { 0 } else { word[0] }
}

/// The last byte, 0 where there is none.
pub fn last_byte(word: &[u8]) -> u8
    ensures { result ≡ last_in word.now }
{
    if word.is_empty() {
        0
    } else {
        word[word.len() - 1]
    }
}

/// A word without its last byte.
pub fn without_last<'a>(word: &'a [u8]) -> &'a [u8]
    ensures { result.now ≡ front_of word.now }
{
    if word.is_empty() {
        word
    } else {
        &word[..word.len() - 1]
    }
}

/// A word without its first byte.
pub fn rest<'a>(text: &'a [u8]) -> &'a [u8]
    ensures { result.now ≡ drop 1 text.now }
{
    if text.is_empty() { text } else { &text[1..] }
}

/// Whether a word has a `/`.
pub fn has_slash(word: &[u8]) -> bool
    ensures { result ≡ slash_in word.now }
{
    word.contains(&b'/')
}

// Whether no name has this byte.
#[tactic(auto, unfolding(crate::specs::Word::is_reserved))]
fn is_reserved(byte: u8) -> bool
    ensures { result ≡ is_reserved_byte byte }
{
    byte == b'~'
        || byte == b'<'
        || byte == b'>'
        || byte == b','
        || byte == b'{'
        || byte == b'}'
        || byte == b'='
}

/// Whether a word has one of `~ < > , { } =`.
pub fn has_reserved(word: &[u8]) -> bool
    ensures { result ≡ reserved_in word.now }
{
    word.iter().any(|byte| is_reserved(*byte))
}

/// Whether a word ends in `+` or `-`.
#[tactic(auto, unfolding(crate::specs::Word::is_signed))]
pub fn is_signed(word: &[u8]) -> bool
    ensures { result ≡ signed word.now }
{
    let last = last_byte(word);
    last == b'+' || last == b'-'
}

/// Whether a word may be a signal.
pub fn is_signal(word: &[u8]) -> bool
    ensures { result ≡ may_be_signal word.now }
{
    !has_slash(word) && !has_reserved(word) && !is_signed(word)
}

/// The name in a word: what stands before its sign, where it has one.
pub fn name_in<'a>(word: &'a [u8]) -> &'a [u8]
    ensures { result.now ≡ name_of_word word.now }
{
    if is_signed(word) {
        without_last(word)
    } else {
        word
    }
}

/// 0 where a word ends in `+`, else 1.
pub fn fall_of(word: &[u8]) -> u32
    ensures value { result ≡ falls word.now }
    ensures small { result ≤ 1 }
{
    if last_byte(word) == b'+' { 0 } else { 1 }
}

/// What stands before the first such byte.
pub fn before<'a>(text: &'a [u8], byte: u8) -> &'a [u8]
    ensures { result.now ≡ before_first (is_byte byte) text.now }
{
    &text[..place_of(text, byte)]
}
