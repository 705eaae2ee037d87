//! The place of each event of one list in another.
ghost use Rattle.std.specs.Prelude.{◌≢◌, ◌<◌, ◌^◌, length, AllPairs, MatchResult};
ghost use Rattle.ds_accept.specs.Steps.{AreEventPlaces, IsNoPlace};

use crate::numbers::Numbers;
use ds_base::{EventId, OutOfMemory};
use ds_marked::Event;
use std::alloc::{AllocFailed, Global};

/// The first event that has no place, or want of memory.
#[derive(Drop)]
pub enum NoPlace {
    First(usize),
    Memory,
}

// For each event its place among the others.
pub(crate) fn places_in(
    alloc: Global,
    events: &[Event],
    others: &[Event],
) -> Result<Vec<EventId>, NoPlace>
    requires once { AllPairs (λ a b. a ≢ b) others.now }
    requires few { length others.now < 2 ^ 32 }
    ensures { MatchResult result (λ v. AreEventPlaces events.now others.now v.items)
        (IsNoPlace events.now others.now) }
{
    let Ok(numbers) = Numbers::of(alloc, others) else {
        return Err(NoPlace::Memory);
    };
    let mut places: Vec<EventId> = Vec::new(alloc);
    for (k, event) in events.iter().enumerate() {
        let Some(place) = numbers.place(event) else {
            return Err(NoPlace::First(k));
        };
        if places.push(EventId::new(place as u32)).is_err() {
            return Err(NoPlace::Memory);
        }
    }
    Ok(places)
}
