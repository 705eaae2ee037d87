//! Whether a run has no unknown value.
ghost use Rattle.std.specs.Prelude.{◌≡◌, true, All};
ghost use Rattle.ds_base.specs.Values.{AreKnown};

use ds_design::Vectors;
use ds_latch::Latches;

/// Whether no start value and no value of a vector is unknown.
pub(crate) fn are_known(latches: &Latches, vectors: &Vectors) -> bool
    ensures { result ≡ true → AreKnown latches.now.initial × All AreKnown vectors.now.rows }
{
    let start = latches.initial();
    start.all_known() && are_rows_known(vectors)
}

// The same of the vectors.
fn are_rows_known(vectors: &Vectors) -> bool
    ensures { result ≡ true → All AreKnown vectors.now.rows }
{
    for k in 0..vectors.count() {
        if !vectors.row(k).all_known() {
            return false;
        }
    }
    true
}
