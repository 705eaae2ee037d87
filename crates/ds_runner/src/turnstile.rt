//! The turnstile with its calls: `build` moves the passes in and `close` moves them out again.
ghost use Rattle.std.specs.Prelude.{◌≡◌, ◌<◌, ◌≤◌, ◌+◌, [], length, true, false};
ghost use Rattle.std.specs.Prelude.{IfOk, OnOk, OnErr, IfSome, IfNone, is_some, vec_capacity};
ghost use Rattle.ds_rule.specs.Rule.{seen};
ghost use Rattle.ds_runner.specs.TurnstileRule.{HasNone, has_out, taken, keeps_permits, one_permit};
ghost use Rattle.ds_runner.specs.TurnstileRule.{joined};
ghost use Rattle.ds_runner.specs.Shown.{AreAlone, IsTurnstileOpened, IsTurnOf, IsPassOf};
ghost use Rattle.ds_runner.specs.Shown.{TakesPass, Misses};
ghost use Rattle.ds_runner.specs.Shown.{GivesBack, IsTurnstileClosed};

use crate::plays::{Key, TurnstileRule};
use crate::seat_steps;
use crate::slots::{empty_slots, fill_slots, rooms};
use crate::turn::Turn;
use crate::turn_view::TurnView;
use atomic_table::{Refused, Table};
use ds_base::{LatchId, OutOfMemory};
use ds_fabric::Pass;
use std::alloc::Global;
use std::marker::Model;
use std::snapshot::Snapshot;

/// The passes of all nodes, each free or with one turn.
#[derive(Drop)]
pub struct Turnstile {
    table: Table<Option<Pass>, TurnView, Key, TurnstileRule, Global>,
}

impl Model for Turnstile {
    ghost use Rattle.ds_runner.specs.Shown.{Stile, IsStile};

    ghost Value = { Stile };

    ghost view = { λ t. record {
      table_id = t.table.shared.table_id;
      given = t.table.shared.key.passes.value.items;
      all_permits = t.table.shared.key.all_permits;
    } };

    ghost invariant = { λ t. IsStile t.table.shared.table_id t.table.shared.key };
}

impl Turnstile {
    /// The turnstile of passes of one fabric, the l-th of which holds node l alone, and the turn
    /// that has all permits. The vector is left empty, as the room for `close`; on a refusal the
    /// passes are in it as before.
    pub fn build(
        alloc: Global,
        passes: &mut Vec<Pass>,
        all_permits: u32,
    ) -> Result<(Turnstile, Turn), OutOfMemory>
        requires some { 0 < length passes.old.items }
        requires alone { AreAlone passes.old.items }
        requires all_permits { 0 < all_permits }

        ensures ok { IfOk result (λ r. IsTurnstileOpened passes.old.items all_permits r.0 r.1) }
        ensures ok_none { OnOk result (passes.new.items ≡ []) }
        ensures same { OnErr result (passes.new.items ≡ passes.old.items) }
        ensures room { vec_capacity passes.new ≡ vec_capacity passes.old }
    {
        let key = Key {
            passes: Snapshot::of(passes),
            all_permits,
        };
        let (words, mut slots) = rooms(alloc, passes.len())?;
        fill_slots(passes, &mut slots);
        match Table::new(alloc, words.as_slice(), slots, &key) {
            Ok((table, seat)) => Ok((
                Turnstile { table },
                Turn {
                    seat,
                    permits: all_permits,
                },
            )),
            Err(Refused { slots }) => {
                empty_slots(&key, slots, passes);
                Err(OutOfMemory)
            }
        }
    }

    /// One permit goes to a new turn, which has no node out.
    pub fn split(&self, turn: &mut Turn) -> Turn
        requires fits { IsTurnOf self.now turn.old }
        requires permits { 1 < turn.old.view.permits }

        ensures fits { IsTurnOf self.now turn.new × IsTurnOf self.now result }
        ensures left { turn.new.view ≡ keeps_permits turn.old.view }
        ensures new { result.view ≡ one_permit turn.old.view }
        ensures none { HasNone result.view }
    {
        turn.permits -= 1;
        let seat = seat_steps::split(&self.table.shared, &mut turn.seat);
        Turn { seat, permits: 1 }
    }

    /// The first turn takes in the second, which has no node out.
    pub fn join(&self, turn: &mut Turn, other: Turn)
        requires fits { IsTurnOf self.now turn.old }
        requires other { IsTurnOf self.now other }
        requires none { HasNone other.view }

        ensures fits { IsTurnOf self.now turn.new }
        ensures view { turn.new.view ≡ joined turn.old.view other.view }
    {
        let Turn { seat, permits } = other;
        seat_steps::join(&self.table.shared, &mut turn.seat, seat);
        turn.permits += permits;
    }

    /// The pass of the node, which this turn does not have out; none where another has it out, so
    /// never where this turn has all permits. It waits for nobody.
    pub fn take(&self, turn: &mut Turn, node: LatchId) -> Option<Pass>
        requires fits { IsTurnOf self.now turn.old }
        requires near { node < length self.now.given }
        requires free { has_out turn.old.view node ≡ false }

        ensures fits { IsTurnOf self.now turn.new }
        ensures pass { IfSome result (λ p. IsPassOf self.now node p) }
        ensures took { IfSome result (λ p.
            TakesPass turn.old.view turn.new.view node (seen p.view node)) }
        ensures missed { IfNone result (Misses turn.old.view turn.new.view node) }
        ensures whole { turn.old.view.permits ≡ self.now.all_permits → is_some result ≡ true }
    {
        seat_steps::take(&self.table.shared, &mut turn.seat, node.index())
    }

    /// Puts the pass of the node back, which this turn has out.
    pub fn give(&self, turn: &mut Turn, node: LatchId, pass: Pass)
        requires fits { IsTurnOf self.now turn.old }
        requires out { has_out turn.old.view node ≡ true }
        requires pass { IsPassOf self.now node pass }
        requires up { taken turn.old.view node ≤ seen pass.view node }

        ensures fits { IsTurnOf self.now turn.new }
        ensures gave { GivesBack turn.old.view turn.new.view node (seen pass.view node) }
    {
        seat_steps::give(&self.table.shared, &mut turn.seat, node.index(), pass);
    }

    /// A plain look shows that the pass of the node is free. A hint: it tells nothing, as the pass
    /// may be out since.
    pub fn seems_free(&self, node: LatchId) -> bool
        requires near { node < length self.now.given }
    {
        self.table.shared.peek(node.index()) == 0
    }

    /// Ends the turnstile, and puts all passes back in order into the vector, which is empty and
    /// has room for them. The turn has all permits, and no node out.
    pub fn close(self, turn: Turn, into: &mut Vec<Pass>)
        requires fits { IsTurnOf self turn }
        requires whole { turn.view.permits ≡ self.all_permits }
        requires none { HasNone turn.view }
        requires room { (into.old.items ≡ []) × (length self.given ≤ vec_capacity into.old) }
        ensures { IsTurnstileClosed self turn.view.made into.new.items }
    {
        let Turnstile { table } = self;
        let Turn { seat, permits: _ } = turn;
        let mut closed = table.close_with(seat);
        for i in 0..closed.slot_count() {
            let Some(pass) = closed.take(i) else {
                unreachable!()
            };
            into.push_reserved(pass);
        }
        closed.free();
    }
}
