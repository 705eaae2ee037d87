//! The last check of a graph: its orders by `first_unmet`, and no cycle of arcs without tokens.
ghost use Rattle.std.specs.Prelude.{◌≡◌, ◌<◌, ℕ, length, All, Contains, MatchResult, None};
ghost use Rattle.ds_marked.specs.Graph.{AreEnds};
ghost use Rattle.ds_accept.specs.Given.{IsGiven};
ghost use Rattle.ds_accept.specs.Steps.{AreWalked, IsMissing, IsUnmet};

use crate::ranked::{by_rank, in_turn};
use crate::{AcceptFault, first_unmet, least_sums};
use ds_base::EventId;
use ds_marked::{Arc, Marked};
use ds_rank::{RankFault, Ranks, rank};
use std::alloc::Global;

// Whether walks give these orders and no cycle of arcs is without tokens; else the first fault.
pub(crate) fn check_walks(alloc: Global, graph: &Marked, asked: &[Arc]) -> Result<(), AcceptFault>
    requires { AreEnds (length graph.now.events) asked.now }
    ensures { MatchResult result (λ _. AreWalked graph.now asked.now)
        (IsUnmet graph.now asked.now) }
{
    match rank(alloc, graph) {
        Ok(ranks) => {
            find_by_rank(alloc, graph, &ranks, asked)?;
            Ok(())
        }
        Err(RankFault::Cycle(cycle)) => {
            find_in_turn(alloc, graph, asked)?;
            Err(AcceptFault::TokenFreeCycle(cycle))
        }
        Err(RankFault::Memory) => Err(AcceptFault::Memory),
    }
}

// Whether walks give these orders, or the first one that none gives, by the ranks of the events.
fn find_by_rank(
    alloc: Global,
    graph: &Marked,
    ranks: &Ranks,
    asked: &[Arc],
) -> Result<(), AcceptFault>
    requires ends { AreEnds (length graph.now.events) asked.now }
    requires ranks { length ranks.now ≡ length graph.now.events }
    ensures { MatchResult result (λ _. All (IsGiven graph.now) asked.now)
        (IsUnmet graph.now asked.now) }
{
    let order = by_rank(alloc, graph.events().len(), ranks)?;
    find_walks(alloc, graph, order.as_slice(), asked)
}

// The same of events as they stand.
fn find_in_turn(alloc: Global, graph: &Marked, asked: &[Arc]) -> Result<(), AcceptFault>
    requires { AreEnds (length graph.now.events) asked.now }
    ensures { MatchResult result (λ _. All (IsGiven graph.now) asked.now)
        (IsUnmet graph.now asked.now) }
{
    let order = in_turn(alloc, graph.events().len())?;
    find_walks(alloc, graph, order.as_slice(), asked)
}

// Whether walks give these orders, or the first one that none gives.
fn find_walks(
    alloc: Global,
    graph: &Marked,
    order: &[EventId],
    asked: &[Arc],
) -> Result<(), AcceptFault>
    requires ends { AreEnds (length graph.now.events) asked.now }
    requires order { (v : ℕ) → v < length graph.now.events → Contains order.now v }
    ensures { MatchResult result (λ _. All (IsGiven graph.now) asked.now)
        (IsUnmet graph.now asked.now) }
{
    match first_unmet(alloc, graph, order, asked)? {
        Some(place) => Err(missing_order(alloc, graph, order, &asked[place])),
        None => Ok(()),
    }
}

// The fault that no walk gives an order.
fn missing_order(alloc: Global, graph: &Marked, order: &[EventId], missing: &Arc) -> AcceptFault
    requires ends { (missing.now.source < length graph.now.events)
        × (missing.now.target < length graph.now.events) }
    requires order { (v : ℕ) → v < length graph.now.events → Contains order.now v }
    ensures { IsMissing graph.now missing.now result }
{
    let Ok(numbers) = least_sums(alloc, graph, order, missing.source) else {
        return AcceptFault::Memory;
    };
    let least = numbers.as_slice()[missing.target.index()];
    AcceptFault::MissingOrder {
        from: missing.source,
        to: missing.target,
        tokens: missing.tokens,
        least,
        numbers,
    }
}
