//! Whether a graph has a cycle.
ghost use Rattle.std.specs.Prelude.{◌≡◌, ◌↔◌, IfOk, IsTrue, map};
ghost use Rattle.ds_rank.specs.Free.{edge_of_arc};
ghost use Rattle.ds_period.specs.Timing.{HasCycle};

use crate::zeros::zeros;
use ds_base::OutOfMemory;
use ds_marked::{Arc, Marked};
use ds_rank::{Edge, OrderFault, least_ranks};
use std::alloc::{AllocError, Global};

/// Whether some walk along the arcs of a graph ends where it begins. Takes time linear in events
/// and arcs.
pub fn has_cycle(alloc: Global, graph: &Marked) -> Result<bool, OutOfMemory>
    ensures { IfOk result (λ is. IsTrue is ↔ HasCycle graph.now) }
{
    let edges = edges(alloc, graph.arcs())?;
    let floors = zeros(alloc, graph.events().len())?;
    match least_ranks(alloc, floors.as_slice(), edges.as_slice()) {
        Ok(_) => Ok(false),
        Err(OrderFault::Cycle(_)) => Ok(true),
        Err(OrderFault::Memory) => Err(OutOfMemory),
    }
}

// The arcs as edges.
fn edges(alloc: Global, arcs: &[Arc]) -> Result<Vec<Edge>, AllocError>
    ensures { IfOk result (λ v. v.items ≡ map edge_of_arc arcs.now) }
{
    arcs.iter()
        .map(|arc| Edge {
            source: arc.source.number(),
            target: arc.target.number(),
        })
        .collect(alloc)
}
