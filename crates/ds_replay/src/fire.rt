//! The event of a line, fired.
ghost use Rattle.std.specs.Prelude.{◌≡◌, ◌<◌, length};
ghost use Rattle.ds_fire.specs.Snapshot.{graph_of};
ghost use Rattle.ds_replay.specs.Step.{FiresTo, kind_of as kind_of_blocked};

use crate::ReplayKind;
use ds_base::EventId;
use ds_fire::State;
use ds_marked::Blocked;

/// Fires an event where this is the number of its next firing and it may fire.
pub fn fire(turn: u64, event: EventId, state: &mut State<'_>) -> Result<(), ReplayKind>
    requires { event < length (graph_of state.old).events }
    ensures { FiresTo state.old event turn state.new result }
{
    if turn == 0 || turn - 1 != state.count(event) {
        return Err(ReplayKind::WrongTurn);
    }
    match state.fire(event) {
        Ok(()) => Ok(()),
        Err(blocked) => Err(kind_of(blocked)),
    }
}

// The kind of what keeps an event from firing.
fn kind_of(blocked: Blocked) -> ReplayKind
    ensures { result ≡ kind_of_blocked blocked }
{
    match blocked {
        Blocked::Limit => ReplayKind::OverLimit,
        Blocked::Arc(arc) => ReplayKind::NotEnabled(arc),
    }
}
