//! Words of a line.
ghost use Rattle.std.specs.Prelude.{◌≡◌, ◌<◌, length, drop};
ghost use Rattle.std.specs.Str.{bytes_eq};
ghost use Rattle.ds_lines.specs.Words.{texts, word_at};

use ds_design::Words;

/// Whether two words are the same.
pub fn is(word: &[u8], text: &[u8]) -> bool
    ensures { result ≡ bytes_eq word.now text.now }
{
    word == text
}

/// The word at a place, empty where there is none.
pub fn word_or_none<'a>(words: &[&'a [u8]], k: usize) -> &'a [u8]
    ensures { result.now ≡ word_at (texts words.now) k }
{
    if k < words.len() { words[k] } else { &[] }
}

/// The words behind the first one.
pub fn words_behind<'a>(words: &'a [&'a [u8]]) -> Words<'a>
    ensures { result ≡ drop 1 (texts words.entry.now) }
{
    Words::of(behind(words, 1))
}

/// The words from a place on.
pub fn behind<'w, 'a>(words: &'w [&'a [u8]], k: usize) -> &'w [&'a [u8]]
    ensures { texts result.now ≡ drop k (texts words.now) }
{
    if k < words.len() { &words[k..] } else { &[] }
}
