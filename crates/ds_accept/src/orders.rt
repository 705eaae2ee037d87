//! The orders that no arc gives.
ghost use Rattle.std.specs.Prelude.{◌≡◌, ◌<◌, ◌≤◌, ◌↔◌, length, slice_index, AllPairs, IfOk};
ghost use Rattle.std.specs.Prelude.{IsTrue};
ghost use Rattle.std.specs.List.{AllWithin, HoldsAt};
ghost use Rattle.ds_marked.specs.Graph.{StandsBefore};
ghost use Rattle.ds_accept.specs.Steps.{AreAsked, AreLeft, EndsBefore, IsArcWithin, IsGivenBy};

use crate::renumber::moved_arcs;
use ds_base::EventId;
use ds_marked::{Arc, Marked};
use std::alloc::{AllocError, Global};

// The required orders that no arc of the graph gives, in order, with the places of their ends.
pub(crate) fn orders_asked(
    alloc: Global,
    required: &Marked,
    graph: &Marked,
    places: &[EventId],
) -> Result<Vec<Arc>, AllocError>
    requires { length places.now ≡ length required.now.events }
    ensures { IfOk result (λ asked. AreAsked required.now.arcs graph.now.arcs
        (slice_index places.now) asked.items) }
{
    let orders = required.arcs();
    let left = left_of(alloc, orders, graph.arcs())?;
    moved_arcs(alloc, left.as_slice(), places)
}

// Goes through orders and arcs side by side.
fn left_of(alloc: Global, orders: &[Arc], arcs: &[Arc]) -> Result<Vec<Arc>, AllocError>
    requires orders { AllPairs StandsBefore orders.now }
    requires arcs { AllPairs StandsBefore arcs.now }
    ensures { IfOk result (λ left. AreLeft orders.now arcs.now left.items) }
{
    let mut left: Vec<Arc> = Vec::new(alloc);
    let mut place = 0;
    for order in orders {
        place = first_from(arcs, place, order);
        if !is_given(arcs, place, order) {
            left.push(*order)?;
        }
    }
    Ok(left)
}

// The first arc from a place on whose ends do not stand before those of the order.
fn first_from(arcs: &[Arc], from: usize, order: &Arc) -> usize
    requires inside { from ≤ length arcs.now }
    requires before { AllWithin (λ arc. EndsBefore arc order.now) arcs.now 0 from }
    ensures inside { result ≤ length arcs.now }
    ensures before { AllWithin (λ arc. EndsBefore arc order.now) arcs.now 0 result }
    ensures behind { result < length arcs.now
        → HoldsAt (λ arc. ¬ EndsBefore arc order.now) arcs.now result }
{
    let mut place = from;
    while place < arcs.len() && ends_before(&arcs[place], order) {
        place += 1;
    }
    place
}

// Whether the ends of an arc stand before those of another.
fn ends_before(arc: &Arc, other: &Arc) -> bool
    ensures { IsTrue result ↔ EndsBefore arc.now other.now }
{
    arc.source < other.source || (arc.source == other.source && arc.target < other.target)
}

// Whether an arc gives an order: the one at the place, where any does.
fn is_given(arcs: &[Arc], place: usize, order: &Arc) -> bool
    requires arcs { AllPairs StandsBefore arcs.now }
    requires before { AllWithin (λ arc. EndsBefore arc order.now) arcs.now 0 place }
    requires behind { place < length arcs.now
        → HoldsAt (λ arc. ¬ EndsBefore arc order.now) arcs.now place }
    ensures { IsTrue result ↔ IsGivenBy arcs.now order.now }
{
    if place >= arcs.len() {
        return false;
    }
    gives(&arcs[place], order)
}

// Whether an arc gives an order.
fn gives(arc: &Arc, order: &Arc) -> bool
    ensures { IsTrue result
        ↔ IsArcWithin order.now.source order.now.target order.now.tokens arc.now }
{
    arc.source == order.source && arc.target == order.target && arc.tokens <= order.tokens
}
