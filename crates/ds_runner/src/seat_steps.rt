//! The steps of a turn, by its seat.
ghost use Rattle.std.specs.Prelude.{◌≡◌, ◌≢◌, ◌<◌, ◌≤◌, ◌+◌, ℕ, [], true, false, MatchOption};
ghost use Rattle.ds_rule.specs.Rule.{seen};
ghost use Rattle.ds_runner.specs.TurnstileRule.{Alone, HasNone, has_out, taken, nodes_of_key};
ghost use Rattle.ds_runner.specs.TurnstileRule.{after_won_take, after_miss, after_give, rested};
ghost use Rattle.ds_runner.specs.TurnstileRule.{keeps_permits, one_permit, joined};

use crate::plays::{
    Fetch, Give, Merge, ObservePermits, PassBoard, ReturnEmptySlot, Seated, SplitOnePermit, Take,
};
use ds_fabric::Pass;

/// The pass of the node, where it is free.
pub fn take(board: &PassBoard, seat: &mut Seated, node: usize) -> Option<Pass>
    requires table { (seat.old.table_id ≡ board.now.table_id) × (node < board.now.table_id.words)
        × (board.now.table_id.words ≡ nodes_of_key board.now.key) }
    requires idle { (seat.old.me.1 ≡ []) × (seat.old.me.0.live ≡ true)
        × (seat.old.me.0.busy ≡ 0) }
    requires free { has_out seat.old.me.0 node ≡ false }

    ensures table { seat.new.table_id ≡ seat.old.table_id }
    ensures idle { seat.new.me.1 ≡ [] }
    ensures told { MatchOption result
        ((seat.new.me.0 ≡ after_miss seat.old.me.0 node)
        × (seat.old.me.0.permits ≢ seat.old.me.0.all_permits))
        (λ p. Alone seat.old.me.0.fabric seat.old.me.0.run node p
        × (seat.new.me.0 ≡ rested (after_won_take seat.old.me.0 node (seen p.view node)))) }
{
    if board.compare_exchange::<Take>(seat, node, 0, 1) != 0 {
        return None;
    }
    let pass = board.exchange(seat, node, None);
    board.load::<ReturnEmptySlot>(seat, node);
    pass
}

/// Puts the pass back.
pub fn give(board: &PassBoard, seat: &mut Seated, node: usize, pass: Pass)
    requires table { (seat.old.table_id ≡ board.now.table_id)
        × (node < board.now.table_id.words) }
    requires idle { (seat.old.me.1 ≡ []) × (seat.old.me.0.live ≡ true)
        × (seat.old.me.0.busy ≡ 0) }
    requires out { (has_out seat.old.me.0 node ≡ true)
        × Alone seat.old.me.0.fabric seat.old.me.0.run node pass
        × (taken seat.old.me.0 node ≤ seen pass.view node) }

    ensures table { seat.new.table_id ≡ seat.old.table_id }
    ensures me { seat.new.me ≡ (
      after_give (record seat.old.me.0 { busy = node + 1 }) node
          (seen pass.view node),
      [],
    ) }
{
    board.load::<Fetch>(seat, node);
    let empty = board.exchange(seat, node, Some(pass));
    let None = empty else { unreachable!() };
    board.store::<Give>(seat, node, 0);
}

/// One permit goes to a new turn.
pub fn split(board: &PassBoard, seat: &mut Seated) -> Seated
    requires table { (seat.old.table_id ≡ board.now.table_id) × (0 < board.now.table_id.words) }
    requires permits { (seat.old.me.0.live ≡ true) × (1 < seat.old.me.0.permits) }

    ensures lent { (seat.new.table_id ≡ seat.old.table_id)
        × (seat.new.me ≡ (keeps_permits seat.old.me.0, seat.old.me.1)) }
    ensures new { (result.table_id ≡ seat.old.table_id)
        × (result.me ≡ (one_permit seat.old.me.0, [])) }
{
    board.split_seat::<SplitOnePermit>(seat)
}

/// Takes in a turn that has no node out. All permits together are no more than a `u32` has.
pub fn join(board: &PassBoard, seat: &mut Seated, other: Seated)
    requires table { (seat.old.table_id ≡ board.now.table_id)
        × (other.table_id ≡ board.now.table_id) × (0 < board.now.table_id.words) }
    requires live { (seat.old.me.0.live ≡ true) × (other.me.0.live ≡ true) × (other.me.1 ≡ []) }
    requires none { HasNone other.me.0 }

    ensures table { seat.new.table_id ≡ seat.old.table_id }
    ensures me { seat.new.me ≡ (joined seat.old.me.0 other.me.0, seat.old.me.1) }
    ensures few { seat.old.me.0.permits + other.me.0.permits < 4294967296 }
{
    board.join_seat::<Merge>(seat, other);
    board.load::<ObservePermits>(seat, 0);
}
