use ds_design::Vectors;
use ds_latch::Plan;

/// A plan, its vectors, and how many firings each worker stops after.
#[derive(Clone, Copy)]
pub struct Halt<'a, 'n> {
    pub plan: &'a Plan<'n>,
    pub vectors: &'a Vectors,
    pub stop: u64,
}
