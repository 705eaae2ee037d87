use ds_fabric::Record;
use ds_latch::Plan;

/// A plan, the record of its run on so many vectors, and the number of the first turn. It has no
/// vectors: what is printed of it is what the run has stored.
#[derive(Clone, Copy)]
pub struct StoredTurns<'a, 'n> {
    pub plan: &'a Plan<'n>,
    pub recorded: &'a Record,
    pub turns: usize,
    pub first: u64,
}
