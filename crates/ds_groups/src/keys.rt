//! Keys, each once.
ghost use Rattle.std.specs.Prelude.{◌≡◌, [], IfOk, MatchOption};
ghost use Rattle.ds_groups.specs.Keys.{net_of_key, IsKeyPlaced, IsNetAt, IsNoNet};

use crate::key::Key;
use ds_base::OutOfMemory;
use indexmap::IndexSet;
use std::alloc::Global;
use std::marker::Model;

/// Keys in the order of their first appearance, each once. Contracts see the nets that they stand
/// for.
pub struct Keys<'a> {
    set: IndexSet<Key<'a>>,
}

impl Drop for Keys<'_> {
    fn drop(self) {
        let Keys { set: _ } = self;
    }
}

impl<'a> Model for Keys<'a> {
    ghost use Rattle.std.specs.Prelude.{List, map};
    ghost use Rattle.ds_design.specs.declared.design.Net.{Net};
    ghost use Rattle.ds_groups.specs.Keys.{net_of_key};

    ghost Value = { List Net };

    ghost view = { λ k. map net_of_key k.set.keys };
}

impl<'a> Keys<'a> {
    /// Without keys.
    pub fn new(alloc: Global) -> Self
        ensures { result ≡ [] }
    {
        Keys {
            set: IndexSet::new(alloc),
        }
    }

    /// The place of a key, which is added where it is not there yet.
    pub fn place(&mut self, key: Key<'a>) -> Result<usize, OutOfMemory>
        ensures { IfOk result (IsKeyPlaced self.old (net_of_key key.entry) self.new) }
    {
        let (place, _) = self.set.insert_full(key)?;
        Ok(place)
    }

    /// The place of a key that is there.
    pub fn find(&self, key: &Key<'_>) -> Option<usize>
        ensures { MatchOption result (IsNoNet self.now (net_of_key key.now))
            (IsNetAt self.now (net_of_key key.now)) }
    {
        match self.set.get_index_of(key) {
            Some(place) => Some(place),
            None => None,
        }
    }
}
