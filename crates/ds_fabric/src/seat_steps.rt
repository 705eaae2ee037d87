//! Seats at the table: cut in two, put together, and given back at the end.
ghost use Rattle.std.specs.Prelude.{◌≡◌, ◌<◌, ℕ, [], true, length};
ghost use Rattle.ds_rule.specs.Run.{node_of, turns};
ghost use Rattle.ds_rule.specs.Log.{Recorded};
ghost use Rattle.ds_rule.specs.Rule.{holds, tickets, seen};
ghost use Rattle.ds_rule.specs.Plays.{with_cut, without_cut, only_cut, taken_in};
ghost use Rattle.ds_fabric.specs.Base.{IsOver};
ghost use Rattle.ds_fabric.specs.Showing.{IsCounted};

use crate::counts::WordBoard;
use atomic_table::{Seat, Table};
use ds_rule::{ChooseCut, Deal, FiringRule, Gather, Observe, RunValues, TableRun, View};
use std::alloc::Global;

/// Cuts the node off the seat.
pub fn deal_seat<V: RunValues>(
    board: &WordBoard<V>,
    run: &TableRun<V>,
    seat: &mut Seat<u8, View>,
    node: usize,
) -> Seat<u8, View>
    requires table { (seat.old.table_id ≡ board.now.table_id)
        × IsOver board.now.table_id board.now.key run.now }
    requires idle { (seat.old.me.0.live ≡ true) × (seat.old.me.0.phase ≡ 0) }
    requires held { holds seat.old.me.0 node ≡ true }

    ensures lent { (seat.new.table_id ≡ seat.old.table_id)
        × (seat.new.me ≡ (without_cut (with_cut seat.old.me.0 node), seat.old.me.1)) }
    ensures new { (result.table_id ≡ seat.old.table_id)
        × (result.me ≡ (only_cut (with_cut seat.old.me.0 node), [])) }
{
    board.compare_exchange::<ChooseCut>(seat, 0, node as u64, node as u64);
    board.split_seat::<Deal>(seat)
}

/// Puts two seats together.
pub fn gather_seats<V: RunValues>(
    board: &WordBoard<V>,
    run: &TableRun<V>,
    seat: &mut Seat<u8, View>,
    other: Seat<u8, View>,
)
    requires table { (seat.old.table_id ≡ board.now.table_id)
        × (other.table_id ≡ board.now.table_id)
        × IsOver board.now.table_id board.now.key run.now }
    requires live { (seat.old.me.0.live ≡ true) × (other.me.0.live ≡ true) × (other.me.1 ≡ []) }
    requires idle { (seat.old.me.0.phase ≡ 0) × (other.me.0.phase ≡ 0) }

    ensures seat { (seat.new.table_id ≡ seat.old.table_id)
        × (seat.new.me ≡ (taken_in seat.old.me.0 other.me.0, seat.old.me.1)) }
    ensures counts { IsCounted seat.new.me.0 }
    ensures distinct { (l : ℕ) → l < seat.old.me.0.run.nodes → holds seat.old.me.0 l ≡ true
        → holds other.me.0 l ≡ true → ⊥ }
{
    board.join_seat::<Gather>(seat, other);
    board.load::<Observe>(seat, 0);
}

/// Ends the table, and answers how many tickets were drawn.
pub fn close_table<V: RunValues>(
    table: Table<u8, View, TableRun<V>, FiringRule, Global>,
    run: &TableRun<V>,
    seat: Seat<u8, View>,
) -> u64
    requires table { (seat.table_id ≡ table.shared.table_id) × (table.shared.table_id.slots ≡ 0)
        × IsOver table.shared.table_id table.shared.key run.now }
    requires idle { (seat.me.0.live ≡ true) × (seat.me.0.phase ≡ 0) }
    requires all { (l : ℕ) → l < run.now.nodes → holds seat.me.0 l ≡ true }
    ensures { Recorded run.now (tickets seat.me.0) result }
{
    let closed = table.close_with(seat);
    let many = closed.word(0);
    closed.free();
    many
}
