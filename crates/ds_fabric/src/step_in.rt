//! Steps in a scratch that is handed in: one for all passes that a worker steps.
ghost use Rattle.std.specs.Prelude.{ℕ, ◌≡◌, true, IfOk, vec_len};
ghost use Rattle.ds_base.specs.Scratch.{Remembers};
ghost use Rattle.ds_rule.specs.Rule.{holds};
ghost use Rattle.ds_fabric.specs.Stepped.{Stepped, FiresIfEnabled};
ghost use Rattle.ds_fabric.specs.Showing.{IsOf, IsPass, Stays};

use crate::compute::Compute;
use crate::context::Context;
use crate::fabric::Fabric;
use crate::flight::fire_if_enabled;
use crate::histories::Histories;
use crate::pass::Pass;
use crate::places::find;
use crate::step::Step;
use atomic_table::Seat;
use ds_base::{LatchId, OutOfMemory, Scratch};
use ds_rule::{RunValues, View};
use std::alloc::Global;

impl<'a, V: RunValues, C: Compute> Fabric<'a, V, C> {
    /// A scratch for one worker.
    pub fn scratch(&self, alloc: Global) -> Result<Scratch, OutOfMemory>
        ensures { IfOk result (Remembers self.now.memory) }
    {
        self.openings.scratch(alloc)
    }

    /// As `step`, in a scratch that is handed in: the pass may be a bare one.
    pub fn step_in(&self, pass: &mut Pass, node: LatchId, scratch: &mut Scratch) -> Step
        requires fits { IsOf self.now pass.old }
        requires held { holds pass.old.view node ≡ true }
        requires remembers { Remembers self.now.memory scratch.old }

        ensures same { Stays self.now.memory pass.old pass.new }
        ensures remembers { Remembers self.now.memory scratch.new }
        ensures step { Stepped self.now.run pass.old.view node result pass.new.view }
        ensures exact { FiresIfEnabled self.now.run pass.old.view node result }
    {
        self.step_node(&mut pass.seat, &mut pass.histories, node, scratch)
    }

    /// Steps the node of a pass, whose parts these are, in this scratch.
    pub(crate) fn step_node(
        &self,
        seat: &mut Seat<u8, View>,
        histories: &mut Histories,
        node: LatchId,
        scratch: &mut Scratch,
    ) -> Step
        requires table { (seat.old.table_id ≡ self.now.table_id)
            × (seat.old.me.0.run ≡ self.now.run) }
        requires pass { (room : ℕ) × IsPass seat.old.me room histories.old }
        requires held { holds seat.old.me.0 node ≡ true }
        requires remembers { Remembers self.now.memory scratch.old }

        ensures same { (seat.new.table_id ≡ seat.old.table_id)
            × (seat.new.me.0.run ≡ seat.old.me.0.run)
            × (seat.new.me.0.holds ≡ seat.old.me.0.holds)
            × (vec_len histories.new.nodes ≡ vec_len histories.old.nodes) }
        ensures remembers { Remembers self.now.memory scratch.new }
        ensures step { Stepped self.now.run seat.old.me.0 node result seat.new.me.0 }
        ensures exact { FiresIfEnabled self.now.run seat.old.me.0 node result }
        ensures pass { (room : ℕ) → IsPass seat.old.me room histories.old
            → IsPass seat.new.me room histories.new }
    {
        let number = node.index();
        let nodes = histories.nodes.as_slice();
        let at = find(nodes, histories.places.as_slice(), number);
        let context = Context {
            board: &self.table.shared,
            run: self.run,
            openings: self.openings,
            incoming: &self.incoming,
            index: &self.index,
        };
        fire_if_enabled(&context, seat, histories, at, scratch)
    }
}
