//! The events of a graph with those of the nodes first.
ghost use Rattle.std.specs.Prelude.{◌≡◌, ◌≢◌, ◌+◌, ◌++◌, ◌<◌, ◌^◌, length, AllPairs, IfOk};
ghost use Rattle.std.specs.Prelude.{OnOk};
ghost use Rattle.ds_accept.specs.Accept.{others_of};
ghost use Rattle.ds_accept.specs.Steps.{AreEventPlaces, AreEventsNumbered, IsNumberOf};

use crate::numbers::Numbers;
use crate::renumber::{copies, copy};
use ds_base::{EventId, OutOfMemory, Seq};
use ds_marked::Event;
use std::alloc::Global;

/// The events of the nodes, then those of a graph that are no node's; and for each event of the
/// graph its number among these.
#[derive(Drop)]
pub struct Numbered {
    pub events: Seq<Event>,
    pub numbers: Vec<EventId>,
}

// Numbers the events of a graph: those of the nodes as they stand, all others behind them.
pub(crate) fn numbers_of(
    alloc: Global,
    known: &[Event],
    graph: &[Event],
) -> Result<Numbered, OutOfMemory>
    requires once { AllPairs (λ a b. a ≢ b) known.now }
    requires few { length known.now + length (others_of known.now graph.now) < 2 ^ 32 }
    ensures { IfOk result (AreEventsNumbered known.now graph.now) }
{
    let mut events = copies(alloc, known)?;
    let numbers = numbers_behind(alloc, known, graph, &mut events)?;
    Ok(Numbered { events, numbers })
}

// The numbers of the events of a graph. Those that are no node's are put behind those of the nodes.
fn numbers_behind(
    alloc: Global,
    known: &[Event],
    graph: &[Event],
    events: &mut Seq<Event>,
) -> Result<Vec<EventId>, OutOfMemory>
    requires nodes { events.old ≡ known.now }
    requires once { AllPairs (λ a b. a ≢ b) known.now }
    requires few { length known.now + length (others_of known.now graph.now) < 2 ^ 32 }
    ensures same { OnOk result (events.new ≡ known.now ++ others_of known.now graph.now) }
    ensures places { IfOk result (λ v. AreEventPlaces graph.now events.new v.items) }
{
    let places = Numbers::of(alloc, known)?;
    let mut numbers: Vec<EventId> = Vec::new(alloc);
    for event in graph {
        let number = number_of(alloc, &places, event, events)?;
        numbers.push(EventId::new(number as u32))?;
    }
    Ok(numbers)
}

// The number of an event: of one that is no node's the next.
fn number_of(
    alloc: Global,
    places: &Numbers<'_>,
    event: &Event,
    events: &mut Seq<Event>,
) -> Result<usize, OutOfMemory>
    ensures { IfOk result (IsNumberOf places.now event.now events.old events.new) }
{
    if let Some(place) = places.place(event) {
        return Ok(place);
    }
    let next = events.as_slice().len();
    events.push(copy(alloc, event)?)?;
    Ok(next)
}
