//! Why events have no ranks.
use ds_base::{EventId, Seq};

/// Arcs without tokens lead in a circle, or memory was wanted and not found.
#[derive(Drop)]
pub enum RankFault {
    /// Such an arc leads from each event to the next, and from the last to the first, which is the
    /// least. No event is there twice.
    Cycle(Seq<EventId>),
    Memory,
}
