//! Why a graph is not accepted.
ghost use Rattle.std.specs.Prelude.{◌≡◌};

use ds_base::{EventId, OutOfMemory, Seq};
use ds_marked::Event;
use std::alloc::AllocError;

/// The first of these that a graph has, or want of memory. Numbers of events are their places in
/// the graph.
#[derive(Drop)]
pub enum AcceptFault {
    /// The first event of a node, in the order of the nodes, that the graph lacks.
    MissingEvent(Event),
    /// The first required order, in the order of the nodes by source and then by target, that no
    /// walk gives with at most its tokens; how few tokens there are along a walk between its ends,
    /// or none where there is no walk; and the same from its source to each event, which shows it.
    MissingOrder {
        from: EventId,
        to: EventId,
        tokens: u8,
        least: Option<u64>,
        numbers: Seq<Option<u64>>,
    },
    /// An arc without tokens leads from each event to the next, and from the last to the first,
    /// which is the least. No event is there twice.
    TokenFreeCycle(Seq<EventId>),
    /// Memory was wanted and not found.
    Memory,
}

impl From<OutOfMemory> for AcceptFault {
    ghost use Rattle.ds_accept.specs.declared.fault.AcceptFault.TheVariants.{Memory};

    ghost from_gives = { λ _ fault. fault ≡ Memory };

    fn from(_: OutOfMemory) -> Self {
        AcceptFault::Memory
    }
}

impl From<AllocError> for AcceptFault {
    ghost use Rattle.ds_accept.specs.declared.fault.AcceptFault.TheVariants.{Memory};

    ghost from_gives = { λ _ fault. fault ≡ Memory };

    fn from(_: AllocError) -> Self {
        AcceptFault::Memory
    }
}
