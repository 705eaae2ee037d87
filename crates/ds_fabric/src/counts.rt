//! Looks at the counts of nodes: with a seat, where the rule tells what was seen, and without one,
//! where nothing is known but a hint.
ghost use Rattle.std.specs.Prelude.{ℕ, ◌≡◌, ◌<◌, ◌≤◌, ◌+◌, true, IfSome, IfNone, length};
ghost use Rattle.std.specs.Prelude.{slice_index};
ghost use Rattle.ds_rule.specs.Run.{Run, events};
ghost use Rattle.ds_rule.specs.Rule.{holds, seen};
ghost use Rattle.ds_rule.specs.Plays.{after_look};
ghost use Rattle.ds_fabric.specs.Base.{IsOver};
ghost use Rattle.ds_fabric.specs.Into.{AreInto};
ghost use Rattle.ds_fabric.specs.Looks.{LooksOn, Enough, IsSeenLacking};

use crate::compute::Compute;
use crate::context::Context;
use crate::incoming::Incoming;
use atomic_table::{Seat, Shared};
use ds_rule::{FiringRule, Look, RunValues, TableRun, View};

/// The table, as its steps see it.
pub type WordBoard<V> = Shared<u8, View, TableRun<V>, FiringRule>;

/// Loads the count of a node.
pub fn look<V: RunValues, C: Compute>(
    context: &Context<V, C>,
    seat: &mut Seat<u8, View>,
    node: usize,
) -> u64
    requires table { seat.old.table_id ≡ context.now.board.now.table_id }
    requires near { node < context.now.run.now.nodes }
    requires idle { (seat.old.me.0.live ≡ true) × (seat.old.me.0.phase ≡ 0) }

    ensures table { seat.new.table_id ≡ seat.old.table_id }
    ensures me { seat.new.me ≡ (after_look seat.old.me.0 node result, seat.old.me.1) }
    ensures own { holds seat.old.me.0 node ≡ true → result ≡ seen seat.old.me.0 node }
    ensures up { seen seat.old.me.0 node ≤ result }
{
    context.board.load::<Look>(seat, node + 1)
}

/// The first of these arcs, which enter one event, on which plain looks at the counts, without a
/// seat, show too few tokens for this turn. A hint: it tells nothing, as the counts may have risen
/// since.
pub fn lacking_between<V: RunValues>(
    board: &WordBoard<V>,
    incoming: &Incoming,
    turn: u64,
    first: usize,
    end: usize,
) -> Option<usize>
    requires inside { (run : Run) × (event : ℕ) × IsOver board.now.table_id board.now.key run
        × AreInto run incoming.now × (event < events run)
        × (slice_index incoming.now.starts.items event ≤ first)
        × (end ≤ slice_index incoming.now.starts.items (event + 1)) }
    requires few { turn < 9223372036854775808 }
{
    let arcs = incoming.arcs.as_slice();
    for i in first..end {
        let arc = arcs[i];
        if arc.lacks(board.peek(arc.node as usize + 1), turn) {
            return Some(i);
        }
    }
    None
}

/// Loads the counts of the event's sources, from the last arc on, up to the first that is too
/// small.
pub fn survey<V: RunValues, C: Compute>(
    context: &Context<V, C>,
    seat: &mut Seat<u8, View>,
    event: usize,
    turn: u64,
) -> Option<(usize, u64)>
    requires table { seat.old.table_id ≡ context.now.board.now.table_id }
    requires incoming { AreInto context.now.run.now context.now.incoming.now }
    requires idle { (seat.old.me.0.live ≡ true) × (seat.old.me.0.phase ≡ 0)
        × (length seat.old.me.0.seen ≡ context.now.run.now.nodes) }
    requires few { (turn < 9223372036854775808) × (event < events context.now.run.now) }

    ensures table { (seat.new.table_id ≡ seat.old.table_id) × (seat.new.me.1 ≡ seat.old.me.1) }
    ensures looks { LooksOn seat.old.me.0 seat.new.me.0 }
    ensures none { IfNone result (Enough context.now.run.now seat.new.me.0 event turn) }
    ensures some { IfSome result (λ r.
        IsSeenLacking context.now.run.now seat.old.me.0 seat.new.me.0 event turn r.0 r.1) }
{
    let incoming = context.incoming;
    let arcs = incoming.arcs.as_slice();
    for i in incoming.starts[event]..incoming.starts[event + 1] {
        let arc = arcs[i];
        let fired = look(context, seat, arc.node as usize);
        if arc.lacks(fired, turn) {
            return Some((incoming.numbers[i] as usize, arc.source.turns(fired)));
        }
    }
    None
}
