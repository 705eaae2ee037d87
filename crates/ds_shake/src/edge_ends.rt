//! The ends of the data edges, in the order in which they are numbered.
ghost use Rattle.std.specs.Prelude.{◌≡◌, map, AllPairs, IfOk, IsPermutation, OnOk};
ghost use Rattle.ds_shake.specs.Steps.{PairBefore, ends_of_edge};

use ds_base::LatchId;
use ds_latch::DataEdge;
use std::alloc::{AllocError, Global};

/// The ends of a data edge, in order by producer and then by consumer.
#[derive(Clone, Copy, Debug, PartialEq, Eq, PartialOrd, Ord)]
pub struct EdgeEnds {
    pub producer: LatchId,
    pub consumer: LatchId,
}

// The ends of each edge.
pub(crate) fn pairs_of(alloc: Global, edges: &[DataEdge]) -> Result<Vec<EdgeEnds>, AllocError>
    ensures { IfOk result (λ pairs. pairs.items ≡ map ends_of_edge edges.now) }
{
    edges
        .iter()
        .map(|edge| EdgeEnds {
            producer: edge.producer,
            consumer: edge.consumer,
        })
        .collect(alloc)
}

// Sorts by producer, and then by consumer.
pub(crate) fn sort_pairs(pairs: &mut Vec<EdgeEnds>) -> Result<(), AllocError>
    ensures same { IsPermutation pairs.old.items pairs.new.items }
    ensures ok { OnOk result (AllPairs PairBefore pairs.new.items) }
{
    pairs.sort()?;
    Ok(())
}
