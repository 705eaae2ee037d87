//! The ranks of nodes.
ghost use Rattle.std.specs.Prelude.{◌≡◌, ◌+◌, ◌<◌, ◌≤◌, ◌^◌, ℕ, length, IfOk, Err, slice_index};
ghost use Rattle.ds_base.specs.Greatest.{greatest};
ghost use Rattle.ds_rank.specs.Order.{HasEdge, IsCycle, IsRanks};
ghost use Rattle.ds_rank.specs.Search.{EndsAreNodes, HasRoom};

use crate::search::Search;
use crate::{Edge, OrderFault};
use std::alloc::Global;

/// The least rank of each node that is at least its floor and above the ranks of the sources of
/// the edges into it. Where edges lead in a circle there is none, and the nodes of one are shown,
/// the least first, each with an edge to the next and the last to the first.
pub fn least_ranks(alloc: Global, floors: &[u64], edges: &[Edge]) -> Result<Vec<u64>, OrderFault>
    requires ends { EndsAreNodes (length floors.now) edges.now }
    requires few { length floors.now < 2 ^ 32 }
    requires room { HasRoom floors.now }

    // The ranks, each below the number of nodes and the greatest floor.
    ensures ok { IfOk result (λ r.
        IsRanks (HasEdge edges.now) (length floors.now) (slice_index floors.now) r.items) }
    ensures few { IfOk result (λ r. (v : ℕ) → v < length floors.now
        → slice_index r.items v < length floors.now + greatest floors.now) }

    // A cycle, of no more nodes than there are.
    ensures size { (nodes : _) → result ≡ Err (OrderFault.Cycle nodes)
        → length nodes.items ≤ length floors.now }
    ensures cycle { (nodes : _) → result ≡ Err (OrderFault.Cycle nodes)
        → IsCycle (HasEdge edges.now) nodes.items }
{
    let mut search = Search::new(alloc, floors, edges)?;
    for node in 0..floors.len() as u32 {
        if search.color_of(node) == 2 {
            search.visit(alloc, floors, edges, node)?;
        }
    }
    Ok(search.into_ranks())
}
