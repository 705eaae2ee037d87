//! The value words of rows: where they stand in the ring of a node, and how an opening reads those
//! of its producers and writes its own.
ghost use Rattle.std.specs.Prelude.{ℕ, ◌≡◌, ◌<◌, ◌≤◌, ◌+◌, ◌-◌, ◌++◌, ◌∷◌, [], length};
ghost use Rattle.std.specs.Prelude.{vec_len, vec_capacity};
ghost use mathlib.Core.Option.{some};
ghost use lib.ListN.{get_elem?};
ghost use Rattle.ds_base.specs.Scratch.{Remembers};
ghost use Rattle.ds_rule.specs.Sound.{IsSound, read_words};
ghost use Rattle.ds_rule.specs.Words.{width, place};
ghost use Rattle.ds_rule.specs.Rows.{row, supply_but, IsStarts, IsOpening};

use crate::compute::Compute;
use crate::context::Context;
use crate::learnt::Learnt;
use atomic_table::Seat;
use ds_rule::{DataEdge, Read, RunValues, TableRun, View, Write};

/// Where the row of an opening stands.
pub fn place_of<V: RunValues>(run: &TableRun<V>, starts: &[usize], node: usize, turn: u64) -> usize
    requires sound { IsSound run.now × IsStarts run.now starts.now }
    requires near { node < run.now.nodes }
    ensures { result ≡ place run.now node turn 0 }
{
    let slack = run.slack();
    if slack == 0 {
        return starts[node];
    }
    let turns = slack as u64 + 1;
    starts[node] + (turn % turns) as usize * run.width(node)
}

// Puts down the number of a producer, and loads its row.
fn read_row<V: RunValues, C: Compute>(
    context: &Context<V, C>,
    seat: &mut Seat<u8, View>,
    edge: DataEdge,
    turn: u64,
    into: &mut Vec<u64>,
)
    requires table { seat.old.table_id ≡ context.now.board.now.table_id }
    requires flight { IsOpening context.now.run.now seat.old.me.0 edge.consumer turn
        × (seat.old.me.0.run ≡ context.now.run.now) }
    requires edge { (k : ℕ) × (get_elem? context.now.run.now.edges k ≡ some edge) }
    requires room { vec_len into.old + width context.now.run.now edge.producer
        < vec_capacity into.old }

    ensures seat { (seat.new.table_id ≡ seat.old.table_id) × (seat.new.id ≡ seat.old.id)
        × (seat.new.me ≡ seat.old.me) }
    ensures value { into.new.items ≡ into.old.items
        ++ edge.producer ∷ row context.now.run.now edge.producer (turn - edge.tokens) }
    ensures room { vec_capacity into.new ≡ vec_capacity into.old }
{
    let producer = edge.producer.index();
    let before = turn - edge.tokens as u64;
    let at = place_of(
        context.run,
        context.index.starts.as_slice(),
        producer,
        before,
    );
    into.push_reserved(producer as u64);
    for i in 0..context.run.width(producer) {
        into.push_reserved(context.board.load::<Read>(seat, at + i));
    }
}

/// Loads the rows of the node's producers that are not learnt, edge by edge, each behind the number
/// of its producer.
pub fn read_rows<V: RunValues, C: Compute>(
    context: &Context<V, C>,
    learnt: &Learnt,
    seat: &mut Seat<u8, View>,
    node: usize,
    into: &mut Vec<u64>,
)
    requires table { seat.old.table_id ≡ context.now.board.now.table_id }
    requires remembers { Remembers (C.memory context.now.openings.now) learnt.now.scratch.now }
    requires flight { IsOpening context.now.run.now seat.old.me.0 node learnt.now.turn
        × (seat.old.me.0.run ≡ context.now.run.now) }
    requires room { (into.old.items ≡ []) × (read_words context.now.run.now node
        (length context.now.run.now.edges) ≤ vec_capacity into.old) }

    ensures seat { (seat.new.table_id ≡ seat.old.table_id) × (seat.new.id ≡ seat.old.id)
        × (seat.new.me ≡ seat.old.me) }
    ensures value { into.new.items ≡ supply_but context.now.run.now
        (λ p. C.has_learnt context.now.openings.now learnt.now.scratch.now p learnt.now.turn)
        node learnt.now.turn (length context.now.run.now.edges) }
    ensures room { vec_capacity into.new ≡ vec_capacity into.old }
{
    let turn = learnt.turn;
    let edges = context.run.edges();
    let first = context.index.firsts[node];
    let end = context.index.firsts[node + 1];
    for i in first..end {
        let edge = edges[i];
        if context
            .openings
            .has_learnt(edge.producer, turn, learnt.scratch)
        {
            continue;
        }
        read_row(context, seat, edge, turn, into);
    }
}

/// Stores the words of the node's next value.
pub fn write_row<V: RunValues, C: Compute>(
    context: &Context<V, C>,
    seat: &mut Seat<u8, View>,
    words: &[u64],
    node: usize,
    turn: u64,
)
    requires table { seat.old.table_id ≡ context.now.board.now.table_id }
    requires flight { IsOpening context.now.run.now seat.old.me.0 node turn
        × (seat.old.me.0.written ≡ 0) }
    requires words { words.now ≡ row context.now.run.now node turn }

    ensures seat { (seat.new.table_id ≡ seat.old.table_id) × (seat.new.id ≡ seat.old.id) }
    ensures me { seat.new.me
        ≡ (record seat.old.me.0 { written = width context.now.run.now node }, seat.old.me.1) }
{
    let at = place_of(context.run, context.index.starts.as_slice(), node, turn);
    for i in 0..words.len() {
        context.board.store::<Write>(seat, at + i, words[i]);
    }
}
