use ds_base::{ArcId, EventId};

/// What a call of `step` did.
#[derive(Clone, Copy, Debug, PartialEq, Eq)]
pub enum Step {
    /// The node's next event fired, with its count after the firing.
    Fired {
        event: EventId,
        turn: u64,
        ticket: u64,
    },
    /// The arc lacks tokens. `seen` is the count of its source.
    NotYet {
        arc: ArcId,
        seen: u64,
    },
    /// Each event of the node has fired as often as it may.
    Done,
}
