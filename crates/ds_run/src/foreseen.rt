//! The values that stand for a run before it has fired.
use ds_design::Vectors;
use ds_latch::Latches;
use ds_rule::RunValues;

/// What stands for the values of the clocked run of a split design on vectors, for so many nodes.
/// Contracts alone read these values.
#[derive(Clone, Copy)]
pub struct Foreseen<'a, 'n> {
    pub latches: &'a Latches<'n>,
    pub vectors: &'a Vectors,
    // The places of the tables, each behind those that it reads.
    pub order: &'a [u32],
    pub count: usize,
}

impl<'a, 'n> RunValues for Foreseen<'a, 'n> {
    ghost use Rattle.ds_opening.specs.Foreseen.{foreseen_rows};

    ghost rows = { λ f. foreseen_rows f.latches.now f.count f.order.now f.vectors.now.rows };
}
