//! Ranks by the order that the arcs without tokens ask for.
ghost use Rattle.std.specs.Prelude.{◌≡◌, ◌⊎◌, length, replicate, IfErr, IfOk};
ghost use Rattle.ds_rank.specs.Rank.{AreRanks, IsRankFault};
ghost use Rattle.ds_rank.specs.Free.{IsFreePart, edge_of_arc};
ghost use Rattle.ds_rank.specs.declared.fault.RankFault.TheVariants.{Cycle, Memory};

use crate::{Edge, OrderFault, RankFault, Ranks, least_ranks};
use ds_base::{EventId, Seq};
use ds_marked::{Arc, Marked};
use std::alloc::{AllocError, Global};

/// The rank of each event: 0 where no arc without tokens enters it, and else one more than the
/// greatest rank among the sources of such arcs.
pub fn rank(alloc: Global, graph: &Marked) -> Result<Ranks, RankFault>
    ensures ok { IfOk result (AreRanks graph.now) }

    ensures fault { IfErr result (IsRankFault graph.now) }
{
    let arcs = graph.arcs();
    let Ok(edges) = free_edges(alloc, arcs) else {
        return Err(RankFault::Memory);
    };
    let Ok(floors) = zeros(alloc, graph.events().len()) else {
        return Err(RankFault::Memory);
    };
    match least_ranks(alloc, floors.as_slice(), edges.as_slice()) {
        Ok(numbers) => Ok(Ranks::of(numbers)),
        Err(OrderFault::Cycle(nodes)) => Err(cycle_of(alloc, nodes.as_slice())),
        Err(OrderFault::Memory) => Err(RankFault::Memory),
    }
}

// Zeros.
fn zeros(alloc: Global, count: usize) -> Result<Vec<u64>, AllocError>
    ensures { IfOk result (λ v. v.items ≡ replicate count 0) }
{
    vec![in alloc; 0; count]
}

// The arcs without tokens, as edges.
fn free_edges(alloc: Global, arcs: &[Arc]) -> Result<Vec<Edge>, AllocError>
    ensures { IfOk result (λ v. IsFreePart arcs.now (length arcs.now) v.items) }
{
    let mut edges: Vec<Edge> = Vec::new(alloc);
    for arc in arcs {
        if arc.tokens == 0 {
            edges.push(edge_along(arc))?;
        }
    }
    Ok(edges)
}

// The edge of an arc.
fn edge_along(arc: &Arc) -> Edge
    ensures { result ≡ edge_of_arc arc.now }
{
    Edge {
        source: arc.source.number(),
        target: arc.target.number(),
    }
}

// The cycle of events with these numbers.
fn cycle_of(alloc: Global, nodes: &[u32]) -> RankFault
    ensures { (result ≡ Memory) ⊎ (result ≡ Cycle nodes.now) }
{
    match ids(alloc, nodes) {
        Ok(events) => RankFault::Cycle(Seq::of(events)),
        Err(_) => RankFault::Memory,
    }
}

// The events with these numbers.
fn ids(alloc: Global, nodes: &[u32]) -> Result<Vec<EventId>, AllocError>
    ensures { IfOk result (λ v. v.items ≡ nodes.now) }
{
    nodes.iter().map(|node| EventId::new(*node)).collect(alloc)
}
