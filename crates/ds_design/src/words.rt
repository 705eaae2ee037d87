//! Words of a line, lent.
ghost use Rattle.std.specs.Prelude.{◌≡◌, ◌<◌, [], map, length};
ghost use Rattle.std.specs.Prelude.{slice_index_or};

use std::marker::Model;

/// Words that follow one another in a line. Contracts see the list of them.
#[derive(Drop)]
pub struct Words<'a> {
    words: &'a [&'a [u8]],
}

impl<'a> Model for Words<'a> {
    ghost use Rattle.std.specs.Prelude.{List, ℕ, map};

    ghost Value = { List (List ℕ) };

    ghost view = { λ w. map (λ word. word.now) w.words.now };
}

impl<'a> Words<'a> {
    /// Of the words of a line.
    pub fn of(words: &'a [&'a [u8]]) -> Self
        ensures { result ≡ map (λ w. w.now) words.entry.now }
    {
        Words { words }
    }

    /// How many there are.
    pub fn len(&self) -> usize
        ensures { result ≡ length self.now }
    {
        self.words.len()
    }

    /// The word at a place.
    pub fn word(&self, k: usize) -> &'a [u8]
        requires { k < length self.now }
        ensures { result.now ≡ slice_index_or self.now k [] }
    {
        word_at(self.words, k)
    }
}

// The word at a place of some words.
fn word_at<'a>(words: &[&'a [u8]], k: usize) -> &'a [u8]
    requires { k < length words.now }
    ensures { result.now ≡ slice_index_or (map (λ w. w.now) words.now) k [] }
{
    words[k]
}
