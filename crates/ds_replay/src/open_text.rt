//! The lines of what open latches show.
ghost use Rattle.std.specs.Prelude.{◌≡◌, ◌<◌, length};
ghost use Rattle.std.specs.List.{flat_map, range_with_len};
ghost use Rattle.ds_latch.specs.Node.{IsNode, number_of, nodes};
ghost use Rattle.ds_latch.specs.declared.node.Node.{Node};
ghost use Rattle.ds_fire.specs.Snapshot.{count_of, held_row, split_of};
ghost use Rattle.ds_outside.specs.Pen.{Puts};
ghost use Rattle.ds_replay.specs.OpenLines.{AreShown, open_line_of, open_lines, open_pair};

use ds_base::{LatchId, Row3};
use ds_fire::State;
use ds_latch::{Latches, Node};
use ds_outside::Pen;
use ds_rows::put_open_line;

/// Writes the lines of the open nodes. There is a row for each node; of an open one it has what
/// that shows.
pub fn put_open_lines<P: Pen>(latches: &Latches<'_>, state: &State<'_>, rows: &[Row3], pen: &mut P)
    requires split { split_of state.now ≡ latches.now }
    requires rows { AreShown state.now rows.now }
    ensures { Puts (P.writing pen.old) (P.writing pen.new)
        (open_lines (count_of state.now) (held_row state.now)
        (length (split_of state.now).clusters)) }
{
    put_open(state, Node::In.latch(), rows, pen);
    put_open(state, Node::Out.latch(), rows, pen);
    put_pairs(latches, state, rows, pen);
}

// Writes the lines of the open nodes of all clusters.
fn put_pairs<P: Pen>(latches: &Latches<'_>, state: &State<'_>, rows: &[Row3], pen: &mut P)
    requires split { split_of state.now ≡ latches.now }
    requires rows { AreShown state.now rows.now }
    ensures { Puts (P.writing pen.old) (P.writing pen.new)
        (flat_map (open_pair (count_of state.now) (held_row state.now))
        (range_with_len 0 (length (split_of state.now).clusters))) }
{
    // The edges are read for the fact that there are not too many nodes.
    let (_edges, clusters) = (latches.edges(), latches.clusters());
    for i in 0..clusters.len() {
        put_pair(state, i as u32, rows, pen);
    }
}

// Writes the lines of the open nodes of a cluster.
fn put_pair<P: Pen>(state: &State<'_>, cluster: u32, rows: &[Row3], pen: &mut P)
    requires rows { AreShown state.now rows.now }
    requires cluster { cluster < length (split_of state.now).clusters }
    requires few { cluster < 1048576 }
    ensures { Puts (P.writing pen.old) (P.writing pen.new)
        (open_pair (count_of state.now) (held_row state.now) cluster) }
{
    put_open(state, Node::Master(cluster).latch(), rows, pen);
    put_open(state, Node::Slave(cluster).latch(), rows, pen);
}

// Writes the line of a node, where it is open.
fn put_open<P: Pen>(state: &State<'_>, node: LatchId, rows: &[Row3], pen: &mut P)
    requires rows { AreShown state.now rows.now }
    requires node { node < nodes (split_of state.now) }
    ensures { (n : Node) → IsNode (split_of state.now) n → number_of n ≡ node
        → Puts (P.writing pen.old) (P.writing pen.new)
        (open_line_of (count_of state.now) (held_row state.now) n) }
{
    if !state.is_open(node) {
        return;
    }
    let at = node.index();
    put_open_line(node, &rows[at], pen);
}
