//! Registers by the nets that they drive, as the index is made.
ghost use Rattle.std.specs.Prelude.{◌≡◌, ◌+◌, ℕ, List, OnOk, None, slice_index_or};
ghost use Rattle.ds_design.specs.declared.design.Net.{Net as TheNet};
ghost use Rattle.ds_groups.specs.Indexed.{IsIndex};
ghost use Rattle.ds_groups.specs.Keys.{net_of_key};
ghost use Rattle.ds_groups.specs.Latest.{driven_net, IsLatest};

use crate::key::{Key, key_of};
use crate::keys::Keys;
use ds_base::{OutOfMemory, RegId};
use ds_design::Net;
use std::alloc::Global;
use std::marker::Model;

/// The nets that registers drive, each once, with the last register of each, and for each register
/// the one before it that drives a net like its own.
pub(crate) struct NetIndex<'a> {
    keys: Keys<'a>,
    latest: Vec<RegId>,
    earlier: Vec<Option<RegId>>,
}

impl Drop for NetIndex<'_> {
    fn drop(self) {
        let NetIndex {
            keys: _,
            latest: _,
            earlier: _,
        } = self;
    }
}

impl<'a> Model for NetIndex<'a> {
    ghost use Rattle.ds_groups.specs.Indexed.{NetIndex};

    ghost Value = { NetIndex };

    ghost view = { λ i. record {
      nets = i.keys;
      latest = i.latest.items;
      earlier = i.earlier.items;
    } };
}

impl<'a> NetIndex<'a> {
    /// Of no registers.
    pub(crate) fn new(alloc: Global) -> Self
        ensures { (nets : List TheNet) → IsIndex nets 0 result }
    {
        NetIndex {
            keys: Keys::new(alloc),
            latest: Vec::new(alloc),
            earlier: Vec::new(alloc),
        }
    }

    /// With the next register, which drives this net.
    pub(crate) fn put(&mut self, register: RegId, net: &'a Net) -> Result<(), OutOfMemory>
        ensures { OnOk result ((nets : List TheNet) → driven_net nets register ≡ net.entry.now
            → IsIndex nets register self.old → IsIndex nets (register + 1) self.new) }
    {
        let place = self.keys.place(key_of(net))?;
        if place < self.latest.len() {
            self.earlier.push(Some(self.latest[place]))?;
            self.latest[place] = register;
        } else {
            self.earlier.push(None)?;
            self.latest.push(register)?;
        }
        Ok(())
    }

    /// The last register that drives the net of a key.
    pub(crate) fn latest(&self, key: &Key<'_>) -> Option<RegId>
        ensures { (nets : List TheNet) (count : ℕ) → IsIndex nets count self.now
            → IsLatest nets count (net_of_key key.now) result }
    {
        match self.keys.find(key) {
            None => None,
            Some(place) => self.latest.get(place).copied(),
        }
    }

    /// The register before this one that drives a net like its own.
    pub(crate) fn earlier(&self, register: RegId) -> Option<RegId>
        ensures { result ≡ slice_index_or self.now.earlier register None }
    {
        match self.earlier.get(register.index()) {
            None => None,
            Some(earlier) => *earlier,
        }
    }
}
