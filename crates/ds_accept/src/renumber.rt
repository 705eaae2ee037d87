//! The same events and arcs, in another order and with other numbers.
ghost use Rattle.std.specs.Prelude.{◌≡◌, ◌<◌, length, map, slice_index, All, Contains, IfOk};
ghost use Rattle.ds_marked.specs.Graph.{AreEnds};
ghost use Rattle.ds_accept.specs.Steps.{IsMoved, moved};

use crate::numbered::{Numbered, numbers_of};
use ds_base::{EventId, OutOfMemory, Seq};
use ds_marked::{Arc, Event, Marked};
use std::alloc::{AllocError, Global};

// The graph with the required events first, all of which it has, and then its others.
pub(crate) fn ordered(
    alloc: Global,
    graph: &Marked,
    required: &Marked,
) -> Result<Marked, OutOfMemory>
    requires { All (Contains graph.now.events) required.now.events }
    ensures { IfOk result (IsMoved graph.now required.now.events) }
{
    let known = required.events();
    let own = graph.events();
    let all = numbers_of(alloc, known, own)?;
    let Numbered { events, numbers } = all;
    let arcs = moved_arcs(alloc, graph.arcs(), numbers.as_slice())?;
    Marked::new(alloc, events, arcs)
}

// The arcs with their ends at these places.
pub(crate) fn moved_arcs(
    alloc: Global,
    arcs: &[Arc],
    places: &[EventId],
) -> Result<Vec<Arc>, AllocError>
    requires { AreEnds (length places.now) arcs.now }
    ensures { IfOk result (λ v. v.items ≡ map (moved (slice_index places.now)) arcs.now) }
{
    arcs.iter().map(|arc| moved_arc(arc, places)).collect(alloc)
}

// An arc with its ends at these places.
fn moved_arc(arc: &Arc, places: &[EventId]) -> Arc
    requires source { arc.now.source < length places.now }
    requires target { arc.now.target < length places.now }
    ensures { result ≡ moved (slice_index places.now) arc.now }
{
    Arc {
        source: places[arc.source.index()],
        target: places[arc.target.index()],
        tokens: arc.tokens,
    }
}

// The same events.
pub(crate) fn copies(alloc: Global, events: &[Event]) -> Result<Seq<Event>, OutOfMemory>
    ensures { IfOk result (λ others. others ≡ events.now) }
{
    let mut others = Seq::new(alloc);
    for event in events {
        others.push(copy(alloc, event)?)?;
    }
    Ok(others)
}

// The same event.
pub(crate) fn copy(alloc: Global, event: &Event) -> Result<Event, OutOfMemory>
    ensures { IfOk result (λ other. other ≡ event.now) }
{
    let signal = Vec::from_slice(alloc, event.signal.as_slice())?;
    Ok(Event {
        signal: Seq::of(signal),
        kind: event.kind,
    })
}
