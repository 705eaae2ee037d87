//! The firing of an event that is known to be enabled: no arc is looked at.
ghost use Rattle.std.specs.Prelude.{ℕ, ◌≡◌, true, vec_len};
ghost use Rattle.ds_base.specs.Scratch.{Remembers};
ghost use Rattle.ds_rule.specs.Run.{next, IsEnabledInRun};
ghost use Rattle.ds_rule.specs.Rule.{holds, seen};
ghost use Rattle.ds_fabric.specs.Stepped.{FiresWith};
ghost use Rattle.ds_fabric.specs.Showing.{Belongs, IsPass, Stays};

use crate::compute::Compute;
use crate::context::Context;
use crate::fabric::Fabric;
use crate::flight::fire_enabled;
use crate::histories::Histories;
use crate::pass::Pass;
use crate::places::find;
use atomic_table::Seat;
use ds_base::{LatchId, Scratch};
use ds_rule::{RunValues, View};

impl<'a, V: RunValues, C: Compute> Fabric<'a, V, C> {
    /// Fires the next event of the node, which is enabled at what the pass has seen: no source of
    /// it is looked at. The ticket. It takes no memory and waits for nobody.
    pub fn fire_due(&self, pass: &mut Pass, node: LatchId) -> u64
        requires fits { Belongs self.now pass.old }
        requires held { holds pass.old.view node ≡ true }
        requires due { IsEnabledInRun self.now.run (seen pass.old.view)
            (next self.now.run node (seen pass.old.view node)) }

        ensures same { Stays self.now.memory pass.old pass.new }
        ensures fires { FiresWith self.now.run pass.old.view pass.new.view node result }
    {
        self.fire_node(&mut pass.seat, &mut pass.histories, node, &mut pass.scratch)
    }

    // Fires the next event of the node of a pass, whose parts these are, in this scratch.
    fn fire_node(
        &self,
        seat: &mut Seat<u8, View>,
        histories: &mut Histories,
        node: LatchId,
        scratch: &mut Scratch,
    ) -> u64
        requires table { (seat.old.table_id ≡ self.now.table_id)
            × (seat.old.me.0.run ≡ self.now.run) }
        requires pass { (room : ℕ) × IsPass seat.old.me room histories.old }
        requires held { holds seat.old.me.0 node ≡ true }
        requires remembers { Remembers self.now.memory scratch.old }
        requires due { IsEnabledInRun self.now.run (seen seat.old.me.0)
            (next self.now.run node (seen seat.old.me.0 node)) }

        ensures same { (seat.new.table_id ≡ seat.old.table_id)
            × (seat.new.me.0.run ≡ seat.old.me.0.run)
            × (seat.new.me.0.holds ≡ seat.old.me.0.holds)
            × (vec_len histories.new.nodes ≡ vec_len histories.old.nodes) }
        ensures remembers { Remembers self.now.memory scratch.new }
        ensures fires { FiresWith self.now.run seat.old.me.0 seat.new.me.0 node result }
        ensures pass { (room : ℕ) → IsPass seat.old.me room histories.old
            → IsPass seat.new.me room histories.new }
    {
        let number = node.index();
        let nodes = histories.nodes.as_slice();
        let at = find(nodes, histories.places.as_slice(), number);
        let context = Context {
            board: &self.table.shared,
            run: self.run,
            openings: self.openings,
            incoming: &self.incoming,
            index: &self.index,
        };
        fire_enabled(&context, seat, histories, at, scratch)
    }
}
