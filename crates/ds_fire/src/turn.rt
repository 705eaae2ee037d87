//! What one firing does to what the nodes keep.
ghost use Rattle.std.specs.Prelude.{◌≡◌, ◌<◌, ◌^◌, length};
ghost use Rattle.ds_design.specs.Circuit.{columns};
ghost use Rattle.ds_design.specs.InRange.{IsInRange};
ghost use Rattle.ds_latch.specs.Plan.{IsSplit};
ghost use Rattle.ds_latch.specs.Node.{IsNode, number_of, nodes, closing};
ghost use Rattle.ds_latch.specs.declared.node.Node.{Node};
ghost use Rattle.ds_fire.specs.Feeds.{AreFeeds};
ghost use Rattle.ds_fire.specs.Turn.{AreRows, Closes, HasRowRoom, IsTurned};

use crate::feeds::Feeds;
use crate::kept::Kept;
use crate::opening::{NodeOpening, open};
use crate::row_places::RowPlaces;
use ds_base::{EventId, LatchId};
use ds_design::Vectors;
use ds_latch::Latches;

// Which event fires, and how often it has fired before.
#[derive(Clone, Copy)]
pub(crate) struct Firing {
    pub(crate) event: EventId,
    pub(crate) count: usize,
}

// Fires an event: an opening puts a row, a closing stores one, and an extra event does neither.
pub(crate) fn turn(
    latches: &Latches,
    vectors: &Vectors,
    feeds: &Feeds,
    firing: Firing,
    kept: &mut Kept,
)
    requires vector { firing.count < length vectors.now.rows }
    requires few { firing.count < 2 ^ 32 }
    requires design { IsInRange latches.now.circuit × IsSplit latches.now }
    requires width { vectors.now.width ≡ length (columns latches.now.circuit) }
    requires feeds { AreFeeds latches.now feeds.now }
    requires rows { AreRows latches.now kept.old.rows.items }
    requires nets { length kept.old.nets ≡ length latches.now.circuit.nets }
    requires stored { length kept.old.stored.items ≡ nodes latches.now }
    requires room { (n : Node) → IsNode latches.now n → closing n ≡ firing.event
        → HasRowRoom latches.now n kept.old.stored.items }
    ensures { IsTurned latches.now vectors.now.rows firing.event firing.count
        kept.old kept.new }
{
    let latch = LatchId::new(firing.event.number() / 2);
    if latch.index() < latches.nodes() {
        if firing.event.number() % 2 == 0 {
            let opening = NodeOpening {
                latch,
                opened: firing.count,
            };
            open(latches, vectors, feeds, opening, kept);
        } else {
            close(latches, latch.index(), firing.count, kept);
        }
    }
}

// The node with this number stores the row of its opening.
fn close(latches: &Latches, number: usize, closed: usize, kept: &mut Kept)
    requires node { number < nodes latches.now }
    requires few { closed < 2 ^ 32 }
    requires rows { AreRows latches.now kept.old.rows.items }
    requires stored { length kept.old.stored.items ≡ nodes latches.now }
    requires room { (n : Node) → IsNode latches.now n → number_of n ≡ number
        → HasRowRoom latches.now n kept.old.stored.items }
    ensures closes { Closes latches.now closed number kept.old.rows.items
        kept.old.stored.items kept.new.stored.items }
    ensures rows { kept.new.rows.items ≡ kept.old.rows.items }
    ensures nets { length kept.new.nets ≡ length kept.old.nets }
{
    let places = RowPlaces::of(latches, closed);
    let row = &kept.rows[number * places.each + places.next];
    kept.stored[number].append(row);
}
