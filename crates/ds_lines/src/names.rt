//! Words in the order of their first appearance.
ghost use Rattle.std.specs.Prelude.{◌≡◌, ◌<◌, ◌≤◌, not, [], length, IfOk, OnOk, OnErr};
ghost use Rattle.std.specs.Prelude.{slice_index_or};
ghost use Rattle.std.specs.List.{list_any, position_or_len};
ghost use Rattle.std.specs.Str.{bytes_eq};
ghost use Rattle.ds_lines.specs.Names.{has_name, place_of_name, with_name};

use ds_base::OutOfMemory;
use indexmap::IndexSet;
use std::alloc::Global;
use std::marker::Model;

/// Words in the order of their first appearance, each once.
pub struct Names<'a> {
    set: IndexSet<&'a [u8]>,
}

impl Drop for Names<'_> {
    fn drop(self) {
        let Names { set: _ } = self;
    }
}

impl<'a> Model for Names<'a> {
    ghost use Rattle.std.specs.Prelude.{List, ℕ, map};

    ghost Value = { List (List ℕ) };

    ghost view = { λ n. map (λ w. w.now) n.set.keys };
}

impl<'a> Names<'a> {
    /// No words.
    pub fn new(alloc: Global) -> Self
        ensures { result ≡ [] }
    {
        Names {
            set: IndexSet::new(alloc),
        }
    }

    /// How many words there are.
    pub fn len(&self) -> usize
        ensures { result ≡ length self.now }
    {
        self.set.len()
    }

    /// Adds a word where it is not there yet. Gives its place, and whether it was added.
    pub fn insert(&mut self, word: &'a [u8]) -> Result<(usize, bool), OutOfMemory>
        ensures place { IfOk result (λ r. r.0 ≡ place_of_name self.old word.now) }
        ensures added { IfOk result (λ r. r.1 ≡ not (has_name self.old word.now)) }
        ensures ok { OnOk result (self.new ≡ with_name self.old word.now) }
        ensures same { OnErr result (self.new ≡ self.old) }
    {
        let (place, added) = self.set.insert_full(word)?;
        Ok((place, added))
    }

    /// The word at a place.
    pub fn name(&self, place: usize) -> &'a [u8]
        requires { place < length self.now }
        ensures { result.now ≡ slice_index_or self.now place [] }
    {
        match self.set.get_index(place) {
            Some(word) => *word,
            None => &[],
        }
    }

    /// The place of a word, how many words there are where it is not there.
    pub fn place(&self, word: &[u8]) -> usize
        ensures value { result ≡ place_of_name self.now word.now }
        ensures within { result ≤ length self.now }
    {
        match self.set.get_index_of(&word) {
            Some(place) => place,
            None => self.set.len(),
        }
    }
}
