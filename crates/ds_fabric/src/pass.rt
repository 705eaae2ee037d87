//! A pass: the nodes that one thread may fire, with their histories.
ghost use Rattle.std.specs.Prelude.{◌≡◌, ◌↔◌, ◌<◌, ℕ, true, IsTrue};
ghost use Rattle.ds_rule.specs.Rule.{holds, seen};
ghost use Rattle.ds_fabric.specs.Showing.{IsCounted};

use crate::histories::Histories;
use crate::places::{find, has};
use atomic_table::Seat;
use ds_base::{LatchId, Scratch};
use ds_rule::View;
use std::marker::Model;

/// What one thread knows of a fabric, and the nodes that it holds.
#[derive(Drop)]
pub struct Pass {
    pub(crate) seat: Seat<u8, View>,
    pub(crate) histories: Histories,
    pub(crate) scratch: Scratch,
    pub(crate) room: u32,
}

impl Model for Pass {
    ghost use Rattle.std.specs.Prelude.{vec_len};
    ghost use Rattle.ds_fabric.specs.Showing.{Showing, IsPass};

    ghost Value = { Showing };

    ghost view = { λ p. record {
      table_id = p.seat.table_id;
      view = p.seat.me.0;
      many = vec_len p.histories.nodes;
      room = p.room;
      scratch = p.scratch;
    } };

    ghost invariant = { λ p. IsPass p.seat.me p.room p.histories };
}

impl Pass {
    /// The pass holds the node.
    pub fn holds(&self, node: LatchId) -> bool
        requires { node < self.now.view.run.nodes }
        ensures { IsTrue result ↔ (holds self.now.view node ≡ true) }
    {
        let nodes = self.histories.nodes.as_slice();
        has(nodes, self.histories.places.as_slice(), node.index())
    }

    /// The most nodes that it can hold.
    pub fn room(&self) -> u32
        ensures { result ≡ self.now.room }
    {
        self.room
    }

    /// How often the node has fired.
    pub fn fired(&self, node: LatchId) -> u64
        requires { holds self.now.view node ≡ true }
        ensures value { result ≡ seen self.now.view node }
        ensures counted { IsCounted self.now.view }
    {
        let number = node.index();
        let nodes = self.histories.nodes.as_slice();
        let at = find(nodes, self.histories.places.as_slice(), number);
        nodes[at].fired
    }
}
