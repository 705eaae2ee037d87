//! The arcs of a graph, in the order of their sources that a caller gives.
ghost use Rattle.std.specs.Prelude.{◌≡◌, ◌++◌, ◌-◌, ◌<◌, ℕ, Contains, IfOk, OnOk, length};
ghost use Rattle.std.specs.Prelude.{take, drop};
ghost use Rattle.ds_accept.specs.Masks.{AreAllIn, HaveSameArcs, IsWithFrom};

use ds_base::EventId;
use ds_marked::{Arc, Marked};
use std::alloc::AllocError;

// The arcs of a graph behind some that are there, those from the first event of the order first.
pub(crate) fn arcs_by(
    mut arcs: Vec<Arc>,
    graph: &Marked,
    order: &[EventId],
) -> Result<Vec<Arc>, AllocError>
    requires order { (v : ℕ) → v < length graph.now.events → Contains order.now v }
    requires arcs { AreAllIn arcs.items graph.now.arcs }
    ensures { IfOk result (λ arcs. HaveSameArcs arcs.items graph.now.arcs) }
{
    // Read for the facts that are known of the arcs of a graph.
    let _kept = graph.arcs();
    for event in order {
        push_from(&mut arcs, graph, *event)?;
    }
    Ok(arcs)
}

// The arcs from an event, behind those that are there.
pub(crate) fn push_from(
    arcs: &mut Vec<Arc>,
    graph: &Marked,
    event: EventId,
) -> Result<(), AllocError>
    ensures { OnOk result (IsWithFrom graph.now.arcs event arcs.old.items arcs.new.items) }
{
    let range = graph.arcs_from(event);
    arcs.extend_from_slice(&graph.arcs()[range.start..range.end])?;
    Ok(())
}
