//! Knots: events that all lead to each other along arcs without tokens.
ghost use Rattle.std.specs.Prelude.{◌<◌, length, OnOk};
ghost use Rattle.ds_accept.specs.Masks.{AreAllIn};

use ds_base::{ArcId, EventId, OutOfMemory};
use ds_marked::{Arc, Marked};
use std::alloc::{AllocError, Global};

// Which events are in a knot, and the last knot: its events, and for each but the first the arc
// that leads from it to one before.
pub(crate) struct Knots {
    taken: Vec<bool>,
    events: Vec<EventId>,
    arcs: Vec<ArcId>,
}

impl Drop for Knots {
    fn drop(self) {
        let Knots {
            taken: _,
            events: _,
            arcs: _,
        } = self;
    }
}

impl Knots {
    pub(crate) fn new(alloc: Global, events: usize) -> Result<Self, AllocError> {
        Ok(Knots {
            taken: vec![in alloc; false; events]?,
            events: Vec::new(alloc),
            arcs: Vec::new(alloc),
        })
    }

    // The knot of an event, out of those that are in none: all that lead to it.
    pub(crate) fn gather(&mut self, graph: &Marked, event: EventId) -> Result<(), OutOfMemory> {
        self.events.clear();
        self.arcs.clear();
        self.take(event)?;
        for place in 0..graph.events().len() {
            let Some(event) = self.event_at(place) else {
                break;
            };
            self.take_sources(graph, event)?;
        }
        Ok(())
    }

    // Puts the arcs of the knot behind others, the last one first: then what is at one of its
    // events is taken on to the first one.
    pub(crate) fn push_arcs(&self, graph: &Marked, arcs: &mut Vec<Arc>) -> Result<(), AllocError>
        requires { AreAllIn arcs.old.items graph.now.arcs }
        ensures { OnOk result (AreAllIn arcs.new.items graph.now.arcs) }
    {
        for arc in self.arcs.iter().rev() {
            push_at(arcs, graph, *arc)?;
        }
        Ok(())
    }

    fn event_at(&self, place: usize) -> Option<EventId> {
        self.events.as_slice().get(place).copied()
    }

    // Takes the events from which arcs without tokens lead to this one.
    fn take_sources(&mut self, graph: &Marked, event: EventId) -> Result<(), OutOfMemory> {
        if event.index() >= graph.events().len() {
            return Ok(());
        }
        let mut next = graph.into_first(event);
        'sources: while let Some(arc) = next {
            self.take_source(graph, arc)?;
            next = graph.into_next(arc);
        }
        Ok(())
    }

    fn take_source(&mut self, graph: &Marked, arc: ArcId) -> Result<(), OutOfMemory>
        requires { arc < length graph.now.arcs }
    {
        if graph.tokens(arc) == 0 && self.take(graph.source(arc))? {
            self.arcs.push(arc)?;
        }
        Ok(())
    }

    // Takes an event that is in no knot. Whether it was in none.
    fn take(&mut self, event: EventId) -> Result<bool, OutOfMemory> {
        if event.index() >= self.taken.as_slice().len() || self.taken[event.index()] {
            return Ok(false);
        }
        self.taken[event.index()] = true;
        self.events.push(event)?;
        Ok(true)
    }
}

// Puts an arc of the graph behind others.
fn push_at(arcs: &mut Vec<Arc>, graph: &Marked, place: ArcId) -> Result<(), AllocError>
    requires { AreAllIn arcs.old.items graph.now.arcs }
    ensures { OnOk result (AreAllIn arcs.new.items graph.now.arcs) }
{
    let known = graph.arcs();
    if place.index() < known.len() {
        let arc = known[place.index()];
        arcs.push(arc)?;
    }
    Ok(())
}
