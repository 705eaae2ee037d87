//! A search along arcs without tokens, deep before wide.
use ds_base::{EventId, OutOfMemory};
use ds_marked::{Arc, Marked};
use std::alloc::{AllocError, Global};

// An event on the path of the search, and the place of the arc that is looked at next.
#[derive(Clone, Copy)]
struct PathStep {
    event: EventId,
    next: usize,
}

// Which events were met, those on the path, and those that were left.
struct Depth {
    met: Vec<bool>,
    path: Vec<PathStep>,
    left: Vec<EventId>,
}

impl Drop for Depth {
    fn drop(self) {
        let Depth {
            met: _,
            path: _,
            left: _,
        } = self;
    }
}

// The events in the order in which the search leaves them, each behind those that it meets first
// on the way from it.
pub(crate) fn left_from(
    alloc: Global,
    graph: &Marked,
    order: &[EventId],
) -> Result<Vec<EventId>, OutOfMemory> {
    let mut depth = Depth::new(alloc, graph.events().len())?;
    for event in order {
        depth.follow(graph, *event)?;
    }
    Ok(depth.into_left())
}

impl Depth {
    fn new(alloc: Global, events: usize) -> Result<Self, AllocError> {
        Ok(Depth {
            met: vec![in alloc; false; events]?,
            path: Vec::new(alloc),
            left: Vec::new(alloc),
        })
    }

    fn into_left(self) -> Vec<EventId> {
        let Depth {
            met: _,
            path: _,
            left,
        } = self;
        left
    }

    // Meets and leaves all that an event leads to: looks at each arc once, and leaves each event
    // once.
    fn follow(&mut self, graph: &Marked, event: EventId) -> Result<(), OutOfMemory> {
        self.enter(graph, event)?;
        for _ in 0..graph.arcs().len() + graph.events().len() + 1 {
            if !self.step(graph)? {
                break;
            }
        }
        Ok(())
    }

    // Looks at the next arc of the event at the end of the path, or leaves it. Whether there is
    // one.
    fn step(&mut self, graph: &Marked) -> Result<bool, OutOfMemory> {
        let Some(step) = self.path.pop() else {
            return Ok(false);
        };
        match graph.arcs().get(step.next) {
            Some(arc) => self.pass(graph, step, arc)?,
            None => self.left.push(step.event)?,
        }
        Ok(true)
    }

    // Goes along an arc of the event, or leaves it where the arc is another one's.
    fn pass(&mut self, graph: &Marked, step: PathStep, arc: &Arc) -> Result<(), OutOfMemory> {
        if arc.source != step.event {
            self.left.push(step.event)?;
            return Ok(());
        }
        self.path.push(PathStep {
            event: step.event,
            next: step.next.saturating_add(1),
        })?;
        if arc.tokens == 0 {
            self.enter(graph, arc.target)?;
        }
        Ok(())
    }

    // Puts an event that is new at the end of the path.
    fn enter(&mut self, graph: &Marked, event: EventId) -> Result<(), OutOfMemory> {
        if event.index() >= self.met.as_slice().len() || self.met[event.index()] {
            return Ok(());
        }
        self.met[event.index()] = true;
        let next = graph.arcs_from(event).start;
        self.path.push(PathStep { event, next })?;
        Ok(())
    }
}
