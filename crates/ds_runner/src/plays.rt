//! The rule of a turnstile, and its steps.
ghost use Rattle.ds_runner.specs.TurnstileRule.{Turning, first_turn, took, rests_now, fetched};
ghost use Rattle.ds_runner.specs.TurnstileRule.{gave, joined};
ghost use Rattle.ds_runner.specs.TurnstileRule.{observed_permits, keeps_permits, one_permit};
ghost use Rattle.ds_runner.specs.TurnstileRule.{spent_turn};

use crate::turn_view::TurnView;
use atomic_table::{Join, Play, Seat, Shared, Split, TableRule};
use ds_fabric::Pass;
use std::snapshot::Snapshot;

/// The passes that the turnstile was built with, and the number of all permits.
#[derive(Drop)]
pub struct Key {
    pub passes: Snapshot<Vec<Pass>>,
    pub all_permits: u32,
}

/// The rule of the table.
pub struct TurnstileRule;

impl TableRule<Option<Pass>, TurnView, Key> for TurnstileRule {
    ghost holds = { Turning };

    ghost first = { first_turn };
}

/// A node goes from free to out, and the slot comes to hand; or it is out.
pub struct Take;

impl Play<Option<Pass>, TurnView> for Take {
    ghost then = { took };
}

/// The slot, now empty, goes back.
pub struct ReturnEmptySlot;

impl Play<Option<Pass>, TurnView> for ReturnEmptySlot {
    ghost then = { rests_now };
}

/// The empty slot of a node that is out comes to hand.
pub struct Fetch;

impl Play<Option<Pass>, TurnView> for Fetch {
    ghost then = { fetched };
}

/// The slot goes back with the pass, and the word says so.
pub struct Give;

impl Play<Option<Pass>, TurnView> for Give {
    ghost then = { gave };
}

/// A load that tells how many permits there may be.
pub struct ObservePermits;

impl Play<Option<Pass>, TurnView> for ObservePermits {
    ghost then = { observed_permits };
}

/// One permit of a turn goes to a new turn.
pub struct SplitOnePermit;

impl Split<TurnView> for SplitOnePermit {
    ghost left = { keeps_permits };

    ghost right = { one_permit };
}

/// A turn takes in another, which has no node out.
pub struct Merge;

impl Join<TurnView> for Merge {
    ghost both = { joined };

    ghost spent = { spent_turn };
}

/// The table, as its steps see it.
pub type PassBoard = Shared<Option<Pass>, TurnView, Key, TurnstileRule>;

/// The seat of a turn.
pub type Seated = Seat<Option<Pass>, TurnView>;
