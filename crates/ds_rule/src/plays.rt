//! The steps that a seat may take at the table, one type each; `specs` say what each of them asks
//! and gives.
ghost use Rattle.ds_rule.specs.Rule.{Lawful, first_view};
ghost use Rattle.ds_rule.specs.Plays.{looked, departed, read, wrote, drew, published};
ghost use Rattle.ds_rule.specs.Plays.{observed, chose_cut, without_cut, only_cut, taken_in, spent};

use crate::table_run::{RunValues, TableRun};
use crate::view::View;
use atomic_table::{Join, Play, Split, TableRule};

/// The rule of the table. No slot is used.
pub struct FiringRule;

impl<V: RunValues> TableRule<u8, View, TableRun<V>> for FiringRule {
    ghost holds = { Lawful };

    ghost first = { first_view };
}

/// A load of a count.
pub struct Look;

impl Play<u8, View> for Look {
    ghost then = { looked };
}

/// A load of a node's own count, with which the flight of its next event begins.
pub struct Depart;

impl Play<u8, View> for Depart {
    ghost then = { departed };
}

/// A load of a value word of a producer.
pub struct Read;

impl Play<u8, View> for Read {
    ghost then = { read };
}

/// A store of the next value word of the pass's own node.
pub struct Write;

impl Play<u8, View> for Write {
    ghost then = { wrote };
}

/// A ticket is drawn.
pub struct Draw;

impl Play<u8, View> for Draw {
    ghost then = { drew };
}

/// The count is published, and the flight ends.
pub struct Publish;

impl Play<u8, View> for Publish {
    ghost then = { published };
}

/// An exchange that leaves word 0 as it is, and names the node that is to be dealt.
pub struct ChooseCut;

impl Play<u8, View> for ChooseCut {
    ghost then = { chose_cut };
}

/// The node that was named goes to a new pass.
pub struct Deal;

impl Split<View> for Deal {
    ghost left = { without_cut };

    ghost right = { only_cut };
}

/// A pass takes in another.
pub struct Gather;

impl Join<View> for Gather {
    ghost both = { taken_in };

    ghost spent = { spent };
}

/// A load after a `Gather`, which shows that no node stood twice among those it holds.
pub struct Observe;

impl Play<u8, View> for Observe {
    ghost then = { observed };
}
