//! Buses, each once.
ghost use Rattle.std.specs.Prelude.{◌≡◌, [], IfOk};
ghost use Rattle.ds_split.specs.Keys.{net_of_bus, IsPlaced};

use crate::bus::Bus;
use ds_base::OutOfMemory;
use indexmap::IndexSet;
use std::alloc::Global;
use std::marker::Model;

/// Buses in the order of their first appearance, each once.
pub struct Buses<'a> {
    set: IndexSet<Bus<'a>>,
}

impl Drop for Buses<'_> {
    fn drop(self) {
        let Buses { set: _ } = self;
    }
}

impl<'a> Model for Buses<'a> {
    ghost use Rattle.std.specs.Prelude.{List, map};
    ghost use Rattle.ds_design.specs.declared.design.Net.{Net};
    ghost use Rattle.ds_split.specs.Keys.{net_of_bus};

    ghost Value = { List Net };

    ghost view = { λ b. map net_of_bus b.set.keys };
}

impl<'a> Buses<'a> {
    /// Without buses.
    pub fn new(alloc: Global) -> Self
        ensures { result ≡ [] }
    {
        Buses {
            set: IndexSet::new(alloc),
        }
    }

    /// The place of a bus, which is added where it is not there yet.
    pub fn place(&mut self, bus: Bus<'a>) -> Result<usize, OutOfMemory>
        ensures { IfOk result (IsPlaced self.old (net_of_bus bus.entry) self.new) }
    {
        let (place, _) = self.set.insert_full(bus)?;
        Ok(place)
    }
}
