//! The events of a graph in the order of their ranks.
ghost use Rattle.std.specs.Prelude.{◌≡◌, ◌<◌, ◌^◌, ℕ, length, map, Contains, IfOk};
ghost use Rattle.std.specs.List.Sorted.{IsPermutation};
ghost use Rattle.ds_accept.specs.Ranked.{AreRanked};

use ds_base::EventId;
use ds_rank::Ranks;
use std::alloc::{AllocError, Global};

// An event with its rank.
#[derive(Clone, Copy)]
struct EventRank {
    rank: u64,
    event: EventId,
}

// The events as they stand.
pub(crate) fn in_turn(alloc: Global, events: usize) -> Result<Vec<EventId>, AllocError>
    requires { events < 2 ^ 32 }
    ensures { IfOk result (λ order. (v : ℕ) → v < events → Contains order.items v) }
{
    (0..events as u32).map(EventId::new).collect(alloc)
}

// The events by their ranks.
pub(crate) fn by_rank(
    alloc: Global,
    events: usize,
    ranks: &Ranks,
) -> Result<Vec<EventId>, AllocError>
    requires few { events < 2 ^ 32 }
    requires ranks { length ranks.now ≡ events }
    ensures { IfOk result (λ order. (v : ℕ) → v < events → Contains order.items v) }
{
    let mut all = with_ranks(alloc, events, ranks)?;
    sort_by_rank(&mut all)?;
    events_of(alloc, all.as_slice())
}

// Each event with its rank.
fn with_ranks(alloc: Global, events: usize, ranks: &Ranks) -> Result<Vec<EventRank>, AllocError>
    requires few { events < 2 ^ 32 }
    requires ranks { length ranks.now ≡ events }
    ensures { IfOk result (λ all. AreRanked events all.items) }
{
    (0..events as u32)
        .map(EventId::new)
        .map(|event| EventRank {
            rank: ranks.at(event),
            event,
        })
        .collect(alloc)
}

// Sorts by rank, and leaves those of one rank in their order.
fn sort_by_rank(all: &mut Vec<EventRank>) -> Result<(), AllocError>
    ensures { IsPermutation all.old.items all.new.items }
{
    all.sort_by_key(|ranked| ranked.rank)?;
    Ok(())
}

// The events alone.
fn events_of(alloc: Global, all: &[EventRank]) -> Result<Vec<EventId>, AllocError>
    ensures { IfOk result (λ events. events.items ≡ map (λ ranked. ranked.event) all.now) }
{
    all.iter().map(|ranked| ranked.event).collect(alloc)
}
