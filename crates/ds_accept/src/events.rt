//! The events of the nodes against those of the graph.
ghost use Rattle.std.specs.Prelude.{◌≡◌, ◌⊎◌, MatchResult};
ghost use Rattle.ds_marked.specs.Graph.{IsKept};
ghost use Rattle.ds_accept.specs.Steps.{AreEventPlaces, IsLacking};
ghost use Rattle.ds_accept.specs.declared.fault.AcceptFault.TheVariants.{Memory, MissingEvent};

use crate::AcceptFault;
use crate::places::{NoPlace, places_in};
use crate::renumber::copy;
use ds_base::EventId;
use ds_marked::{Event, Marked};
use std::alloc::Global;

// The place of each required event in a graph.
pub(crate) fn places_of(
    alloc: Global,
    required: &Marked,
    graph: &Marked,
) -> Result<Vec<EventId>, AcceptFault>
    ensures value { MatchResult result
        (λ v. AreEventPlaces required.now.events graph.now.events v.items)
        (IsLacking required.now.events graph.now.events) }
    ensures kept { IsKept required.now × IsKept graph.now }
{
    let events = required.events();
    match places_in(alloc, events, graph.events()) {
        Ok(places) => Ok(places),
        Err(NoPlace::First(number)) => Err(missing_event(alloc, &events[number])),
        Err(NoPlace::Memory) => Err(AcceptFault::Memory),
    }
}

// The fault that an event lacks.
fn missing_event(alloc: Global, event: &Event) -> AcceptFault
    ensures { (result ≡ Memory) ⊎ (result ≡ MissingEvent event.now) }
{
    match copy(alloc, event) {
        Ok(event) => AcceptFault::MissingEvent(event),
        Err(_) => AcceptFault::Memory,
    }
}
