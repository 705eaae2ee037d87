//! Whether the row of a node is learnt in a scratch, whose slots are those of the groups, and
//! behind them one of each node.
ghost use Rattle.std.specs.Prelude.{◌≡◌, ◌+◌, ◌<◌, length};
ghost use Rattle.ds_opening.specs.Foreseen.{node_at};
ghost use Rattle.ds_opening.specs.Learnt.{is_learnt as learnt_row, is_no_master as no_master};

use crate::TableGroups;
use ds_base::{LatchId, Scratch};
use ds_latch::Node;

/// Whether the row of the node with this number is learnt for this turn: an opening of the turn
/// takes no words of it.
pub fn is_learnt(groups: &TableGroups, scratch: &Scratch, node: LatchId, turn: u64) -> bool
    requires { length groups.now.groups + node < length scratch.now.turns }
    ensures { result ≡ learnt_row (length groups.now.groups) scratch.now turn node }
{
    // The slots are counted for the fact that there are not too many.
    let _slots = scratch.slots();
    scratch.is_noted(groups.count() + node.index(), turn) && is_no_master(node)
}

// Whether the node with this number is no master.
fn is_no_master(node: LatchId) -> bool
    ensures { result ≡ no_master (node_at node) }
{
    match Node::of(node) {
        Node::In | Node::Out | Node::Slave(_) => true,
        Node::Master(_) => false,
    }
}
