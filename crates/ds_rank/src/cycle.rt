//! The cycle that an edge closes.
ghost use Rattle.std.specs.Prelude.{◌≡◌, ◌<◌, ◌≤◌, ◌+◌, ◌-◌, ℕ, List, length, slice_index, IfOk};
ghost use Rattle.std.specs.Prelude.{drop, reverse};
ghost use Rattle.ds_rank.specs.Order.{HasEdge, IsCycle};
ghost use Rattle.ds_rank.specs.Search.{ClosesAt, IsPath};

use crate::Edge;
use ds_base::OutOfMemory;
use std::alloc::{AllocError, Global};

// The cycle that an edge from the source to the end of the path closes.
pub(crate) fn cycle_through(
    alloc: Global,
    edges: &[Edge],
    path: &[u32],
    source: u32,
) -> Result<Vec<u32>, OutOfMemory>
    requires path { IsPath edges.now path.now }
    requires closes { ClosesAt edges.now path.now source }
    ensures cycle { IfOk result (λ nodes. IsCycle (HasEdge edges.now) nodes.items) }
    ensures size { IfOk result (λ nodes. length nodes.items ≤ length path.now) }
{
    let start = place_of(path, source);
    let mut nodes = turned(alloc, &path[start..])?;
    let first = least(nodes.as_slice());
    nodes.rotate_left(first);
    Ok(nodes)
}

// The nodes from the last to the first.
fn turned(alloc: Global, nodes: &[u32]) -> Result<Vec<u32>, AllocError>
    ensures { IfOk result (λ v. v.items ≡ reverse nodes.now) }
{
    nodes.iter().rev().copied().collect(alloc)
}

// Where a node stands on the path.
fn place_of(path: &[u32], node: u32) -> usize
    requires { (i : ℕ) × (i < length path.now) × (slice_index path.now i ≡ node) }
    ensures inside { result < length path.now }
    ensures at { slice_index path.now result ≡ node }
{
    for (i, other) in path.iter().enumerate() {
        if *other == node {
            return i;
        }
    }
    0
}

// Where the least node stands.
fn least(nodes: &[u32]) -> usize
    requires { 0 < length nodes.now }
    ensures inside { result < length nodes.now }
    ensures least { (i : ℕ) → i < length nodes.now
        → slice_index nodes.now result ≤ slice_index nodes.now i }
{
    let mut best = 0;
    for (i, node) in nodes.iter().enumerate() {
        if *node < nodes[best] {
            best = i;
        }
    }
    best
}
