//! How many values the rows of the nodes have.
ghost use Rattle.std.specs.Prelude.{◌≤◌, IfOk};
ghost use Rattle.ds_latch.specs.Node.{nodes};
ghost use Rattle.ds_run.specs.RunOfPlan.{AreLengths};

use ds_base::OutOfMemory;
use ds_latch::Latches;
use std::alloc::Global;

// For so many nodes: those of the split design, and behind them nodes with rows of no values.
pub(crate) fn lengths_of(
    alloc: Global,
    latches: &Latches,
    count: usize,
) -> Result<Vec<usize>, OutOfMemory>
    requires { nodes latches.now ≤ count }
    ensures { IfOk result (λ lengths. AreLengths latches.now count lengths.items) }
{
    let bits = latches.bits();
    let mut lengths = vec![in alloc; 0; count]?;
    for i in 0..bits.len() {
        lengths[i] = bits[i].as_slice().len();
    }
    Ok(lengths)
}
