//! The data edges, each with the tokens of its orders.
ghost use Rattle.std.specs.Prelude.{◌≡◌, ◌+◌, ◌*◌, ◌≤◌, length, map, IfOk, OnOk};
ghost use Rattle.std.specs.List.Sorted.{IsNonDecreasingBy, IsPermutation};
ghost use Rattle.ds_latch.specs.Node.{nodes};
ghost use Rattle.ds_run.specs.RunOfPlan.{AreDataEdges};
ghost use Rattle.ds_run.specs.Tokened.{tokened};

use ds_base::OutOfMemory;
use ds_control::tokens_after;
use ds_latch::{DataEdge as Edge, Latches};
use ds_rule::DataEdge;
use std::alloc::{AllocError, Global};

// The data edges of a split design, by their consumers.
pub(crate) fn edges_of(alloc: Global, latches: &Latches) -> Result<Vec<DataEdge>, OutOfMemory>
    ensures ok { IfOk result (λ edges. AreDataEdges latches.now edges.items) }
    ensures few { IfOk result (λ edges. 2 * nodes latches.now + 2 * length edges.items ≤ 1048576) }
{
    let mut edges = with_tokens(alloc, latches.edges())?;
    sort_by_consumer(&mut edges)?;
    Ok(edges)
}

// Each edge with its tokens.
fn with_tokens(alloc: Global, given: &[Edge]) -> Result<Vec<DataEdge>, AllocError>
    ensures { IfOk result (λ edges. edges.items ≡ map tokened given.now) }
{
    let mut edges = Vec::with_capacity(alloc, given.len())?;
    for edge in given {
        edges.push(DataEdge {
            producer: edge.producer,
            consumer: edge.consumer,
            tokens: tokens_after(edge.producer),
        })?;
    }
    Ok(edges)
}

// Sorts by consumer.
fn sort_by_consumer(edges: &mut Vec<DataEdge>) -> Result<(), AllocError>
    ensures permuted { IsPermutation edges.old.items edges.new.items }
    ensures rising { OnOk result (IsNonDecreasingBy (λ e. e.consumer) edges.new.items) }
{
    edges.sort_by_key(|edge| edge.consumer)?;
    Ok(())
}
