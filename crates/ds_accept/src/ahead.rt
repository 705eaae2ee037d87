//! Arcs that are taken ahead of all, so that one sweep is enough.
ghost use Rattle.std.specs.Prelude.{IfOk, OnOk};
ghost use Rattle.ds_accept.specs.Masks.{AreAllIn};

use crate::arcs::push_from;
use crate::depth::left_from;
use crate::knots::Knots;
use ds_base::{EventId, OutOfMemory};
use ds_marked::{Arc, Marked};
use std::alloc::Global;

// None where the events stand in an order along the arcs without tokens. Else the arcs in such an
// order of the knots; ahead of those from a knot some that lead from its events to its first one.
pub(crate) fn arcs_ahead(
    alloc: Global,
    graph: &Marked,
    order: &[EventId],
) -> Result<Vec<Arc>, OutOfMemory>
    ensures { IfOk result (λ arcs. AreAllIn arcs.items graph.now.arcs) }
{
    if leads_on(alloc, graph, order)? {
        return Ok(Vec::new(alloc));
    }
    let left = left_from(alloc, graph, order)?;
    arcs_by_knots(alloc, graph, left.as_slice())
}

// The same of events as a search left them, the last one first.
fn arcs_by_knots(alloc: Global, graph: &Marked, left: &[EventId]) -> Result<Vec<Arc>, OutOfMemory>
    ensures { IfOk result (λ arcs. AreAllIn arcs.items graph.now.arcs) }
{
    let mut knots = Knots::new(alloc, graph.events().len())?;
    let mut arcs: Vec<Arc> = Vec::new(alloc);
    for event in left.iter().rev() {
        push_knot(graph, &mut knots, &mut arcs, *event)?;
    }
    Ok(arcs)
}

// The arcs of the knot of an event and those from it, behind those that are there.
fn push_knot(
    graph: &Marked,
    knots: &mut Knots,
    arcs: &mut Vec<Arc>,
    event: EventId,
) -> Result<(), OutOfMemory>
    requires { AreAllIn arcs.old.items graph.now.arcs }
    ensures { OnOk result (AreAllIn arcs.new.items graph.now.arcs) }
{
    knots.gather(graph, event)?;
    knots.push_arcs(graph, arcs)?;
    push_from(arcs, graph, event)?;
    Ok(())
}

// Whether no arc without tokens leads to its source or to an event before it.
fn leads_on(alloc: Global, graph: &Marked, order: &[EventId]) -> Result<bool, OutOfMemory> {
    let mut met: Vec<bool> = vec![in alloc; false; graph.events().len()]?;
    for event in order {
        meet(met.as_mut_slice(), *event);
        if leads_back(graph, *event, met.as_slice()) {
            return Ok(false);
        }
    }
    Ok(true)
}

fn meet(met: &mut [bool], event: EventId) {
    if event.index() < met.len() {
        met[event.index()] = true;
    }
}

// Whether an arc without tokens leads from an event to one that was met.
fn leads_back(graph: &Marked, event: EventId, met: &[bool]) -> bool {
    let range = graph.arcs_from(event);
    graph.arcs()[range.start..range.end].iter().any(|arc| arc.tokens == 0
        && met.get(arc.target.index()) == Some(&true))
}
