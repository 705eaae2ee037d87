//! A copy, and what its names stand for.
ghost use Rattle.std.specs.Prelude.{◌≡◌, ◌++◌, ◌∷◌, [], false, OnOk};
ghost use Rattle.ds_flat.specs.Net.{net_of_name};
ghost use Rattle.ds_flat.specs.Keys.{net_key, has_formal, with_binding};

use crate::nets::NetKey;
use ds_base::OutOfMemory;
use indexmap::IndexMap;
use std::alloc::Global;
use std::marker::Model;

/// A copy: its number, and its connected formals, each with the net that stands for it.
pub struct Scope<'m> {
    copy: u32,
    bound: IndexMap<&'m [u8], NetKey<'m>>,
}

impl Drop for Scope<'_> {
    fn drop(self) {
        let Scope { copy: _, bound: _ } = self;
    }
}

impl<'m> Model for Scope<'m> {
    ghost use Rattle.std.specs.Prelude.{map};
    ghost use Rattle.ds_flat.specs.Net.{Scope as Seen};
    ghost use Rattle.ds_flat.specs.Keys.{binding_of};

    ghost Value = { Seen };

    ghost view = { λ s. record { copy = s.copy; bound = map binding_of s.bound.entries } };
}

impl<'m> Scope<'m> {
    /// A copy without connected formals.
    pub fn new(alloc: Global, copy: u32) -> Self
        ensures { result ≡ record { copy = copy; bound = [] } }
    {
        Scope {
            copy,
            bound: IndexMap::new(alloc),
        }
    }

    /// The number of the copy.
    pub fn copy(&self) -> u32
        ensures { result ≡ self.now.copy }
    {
        self.copy
    }

    /// The net of a name.
    pub fn net(&self, name: &'m [u8]) -> NetKey<'m>
        ensures { net_key result ≡ net_of_name self.now name.now }
    {
        // A map makes the hash of what it is asked for, though it has no entries.
        if self.bound.len() == 0 {
            return own(self.copy, name);
        }
        match self.bound.get(&name) {
            Some(net) => *net,
            None => own(self.copy, name),
        }
    }

    /// Connects a formal that is not connected yet.
    pub fn bind(&mut self, formal: &'m [u8], net: NetKey<'m>) -> Result<(), OutOfMemory>
        requires new { has_formal self.old.bound formal.now ≡ false }
        ensures { OnOk result (self.new ≡ with_binding self.old formal.now (net_key net.entry)) }
    {
        self.bound.insert(formal, net)?;
        Ok(())
    }
}

// The net of a name that a copy has for itself.
fn own<'m>(copy: u32, name: &'m [u8]) -> NetKey<'m>
    ensures { result ≡ record { copy = copy; name = name.entry } }
{
    NetKey { copy, name }
}
