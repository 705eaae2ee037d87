//! What some nets depend on.
ghost use Rattle.std.specs.Prelude.{◌≡◌, [], ◌∷◌, ◌++◌, OnOk};

use ds_base::{NetId, OutOfMemory};
use std::alloc::Global;
use std::marker::Model;

/// The tables that some nets depend on, by level, and the nets at which that begins, which no table
/// drives. Contracts see both lists.
#[derive(Drop)]
pub struct Cone {
    tables: Vec<u32>,
    sources: Vec<NetId>,
}

impl Model for Cone {
    ghost use Rattle.ds_settle.specs.Cone.{Parts};

    ghost Value = { Parts };

    ghost view = { λ cone. record { tables = cone.tables.items; sources = cone.sources.items } };
}

impl Cone {
    // Without tables and sources.
    pub(crate) fn new(alloc: Global) -> Self
        ensures { result ≡ record { tables = []; sources = [] } }
    {
        Cone {
            tables: Vec::new(alloc),
            sources: Vec::new(alloc),
        }
    }

    // The same sources with these tables.
    pub(crate) fn with_tables(self, tables: Vec<u32>) -> Self
        ensures { result ≡ record { tables = tables.items; sources = self.sources } }
    {
        Cone {
            tables,
            sources: self.sources,
        }
    }

    /// The numbers of the tables, each after those that drive its inputs.
    pub fn tables(&self) -> &[u32]
        ensures { result.now ≡ self.now.tables }
    {
        self.tables.as_slice()
    }

    /// The nets of the cone that no table drives, in no order that is promised.
    pub fn sources(&self) -> &[NetId]
        ensures { result.now ≡ self.now.sources }
    {
        self.sources.as_slice()
    }

    // One table more.
    pub(crate) fn push_table(&mut self, table: u32) -> Result<(), OutOfMemory>
        ensures { OnOk result (self.new ≡ record {
          tables = self.old.tables ++ table ∷ [];
          sources = self.old.sources;
        }) }
    {
        self.tables.push(table)?;
        Ok(())
    }

    // One source more.
    pub(crate) fn push_source(&mut self, net: NetId) -> Result<(), OutOfMemory>
        ensures { OnOk result (self.new ≡ record {
          tables = self.old.tables;
          sources = self.old.sources ++ net ∷ [];
        }) }
    {
        self.sources.push(net)?;
        Ok(())
    }
}
