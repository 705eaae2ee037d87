//! An order in which all events of a turn may fire, one after another. It is found from the arcs
//! without tokens, and then checked: what is not an order is let go.
ghost use Rattle.std.specs.Prelude.{◌≡◌, ◌<◌, ◌+◌, IfOk, IsTrue, length, slice_index};
ghost use Rattle.ds_rule.specs.Run.{node_of};
ghost use Rattle.ds_rule.specs.Sound.{IsSound};
ghost use Rattle.ds_runner.specs.FiringOrder.{CloseLater, HavePlaces, IsFiringOrder, PlacesRise};
ghost use Rattle.ds_runner.specs.FiringOrder.{StandInPlace};

use crate::targets::arcs_from;
use ds_base::{EventId, OutOfMemory};
use ds_marked::Arc;
use ds_rule::{RunValues, TableRun};
use std::alloc::Global;

/// All events, each behind the sources of the arcs without tokens into it. Behind an event its
/// node's next event comes at once, if nothing else has to come first. None, if no such order was
/// found.
pub fn firing_order<V: RunValues>(
    alloc: Global,
    run: &TableRun<V>,
) -> Result<Vec<EventId>, OutOfMemory>
    requires { IsSound run.now }
    ensures { IfOk result (λ v. 0 < length v.items → IsFiringOrder run.now v.items) }
{
    let order = sorted(alloc, run)?;
    let places = places_of(alloc, run, order.as_slice())?;
    if is_order(run, order.as_slice(), places.as_slice()) {
        Ok(order)
    } else {
        Ok(Vec::new(alloc))
    }
}

// Whether this is an order, and these are the places of the events in it.
fn is_order<V: RunValues>(run: &TableRun<V>, order: &[EventId], places: &[usize]) -> bool
    requires { IsSound run.now }
    ensures { IsTrue result → IsFiringOrder run.now order.now }
{
    if !stand_in_place(run, order, places) {
        return false;
    }
    if !have_places(run, order, places) {
        return false;
    }
    if !rise(run, places) {
        return false;
    }
    close_later(run, places)
}

// Whether each event of the order is one of the run and stands at its place.
fn stand_in_place<V: RunValues>(run: &TableRun<V>, order: &[EventId], places: &[usize]) -> bool
    requires { IsSound run.now }
    ensures { IsTrue result → StandInPlace run.now order.now places.now }
{
    for i in 0..order.len() {
        if !stands_at(run, places, order[i], i) {
            return false;
        }
    }
    true
}

// Whether the event is one of the run, and its place is this one.
fn stands_at<V: RunValues>(
    run: &TableRun<V>,
    places: &[usize],
    event: EventId,
    place: usize,
) -> bool
    requires { IsSound run.now }
    ensures { IsTrue result → (node_of run.now event < run.now.nodes)
        × (slice_index places.now event ≡ place) }
{
    let number = event.index();
    if run.node_of(number) >= run.nodes() || number >= places.len() {
        return false;
    }
    places[number] == place
}

// Whether each event has a place, at which it stands.
fn have_places<V: RunValues>(run: &TableRun<V>, order: &[EventId], places: &[usize]) -> bool
    requires { IsSound run.now }
    ensures { IsTrue result
        → HavePlaces (run.now.nodes + run.now.design_nodes) order.now places.now }
{
    for event in 0..run.nodes() + run.design_nodes() {
        if !has_place(order, places, event) {
            return false;
        }
    }
    true
}

// Whether the event has a place, at which it stands.
fn has_place(order: &[EventId], places: &[usize], event: usize) -> bool
    ensures { IsTrue result → (slice_index places.now event < length order.now)
        × (slice_index order.now (slice_index places.now event) ≡ event) }
{
    if event >= places.len() || places[event] >= order.len() {
        return false;
    }
    order[places[event]].index() == event
}

// Whether the places rise along each arc without tokens.
fn rise<V: RunValues>(run: &TableRun<V>, places: &[usize]) -> bool
    ensures { IsTrue result → PlacesRise run.now places.now }
{
    let arcs = run.arcs();
    for i in 0..arcs.len() {
        if !rises(places, arcs[i]) {
            return false;
        }
    }
    true
}

// Whether the places rise along the arc, if it has no tokens.
fn rises(places: &[usize], arc: Arc) -> bool
    ensures { IsTrue result → arc.tokens ≡ 0
        → slice_index places.now arc.source < slice_index places.now arc.target }
{
    arc.tokens != 0 || is_before(places, arc.source.index(), arc.target.index())
}

// Whether each latch opens before it closes.
fn close_later<V: RunValues>(run: &TableRun<V>, places: &[usize]) -> bool
    requires { IsSound run.now }
    ensures { IsTrue result → CloseLater run.now.design_nodes places.now }
{
    for latch in 0..run.design_nodes() {
        if !is_before(places, 2 * latch, 2 * latch + 1) {
            return false;
        }
    }
    true
}

// Whether an event stands before another.
fn is_before(places: &[usize], event: usize, other: usize) -> bool
    ensures { IsTrue result → slice_index places.now event < slice_index places.now other }
{
    if event >= places.len() || other >= places.len() {
        return false;
    }
    places[event] < places[other]
}

// The place of each event in the order, or 0.
fn places_of<V: RunValues>(
    alloc: Global,
    run: &TableRun<V>,
    order: &[EventId],
) -> Result<Vec<usize>, OutOfMemory>
    requires { IsSound run.now }
{
    let mut places = vec![in alloc; 0usize; run.nodes() + run.design_nodes()]?;
    for i in 0..order.len() {
        let event = order[i].index();
        if event < places.len() {
            places[event] = i;
        }
    }
    Ok(places)
}

// The events, each taken once all before it are: the one that became free last first.
fn sorted<V: RunValues>(alloc: Global, run: &TableRun<V>) -> Result<Vec<EventId>, OutOfMemory>
    requires { IsSound run.now }
{
    let firsts = arcs_from(alloc, run)?;
    let mut waits = waits_of(alloc, run)?;
    let mut free = free_of(alloc, run, waits.as_slice())?;
    let mut order = Vec::new(alloc);
    for _ in 0..waits.len() {
        let Some(event) = free.pop() else {
            return Ok(order);
        };
        order.push(event)?;
        release(run, &firsts, event, waits.as_mut_slice(), &mut free)?;
    }
    Ok(order)
}

// How many arcs without tokens enter each event.
fn waits_of<V: RunValues>(alloc: Global, run: &TableRun<V>) -> Result<Vec<u32>, OutOfMemory>
    requires { IsSound run.now }
{
    let mut waits = vec![in alloc; 0u32; run.nodes() + run.design_nodes()]?;
    let arcs = run.arcs();
    for i in 0..arcs.len() {
        let target = arcs[i].target.index();
        if arcs[i].tokens == 0 && target < waits.len() {
            waits[target] = waits[target].saturating_add(1);
        }
    }
    Ok(waits)
}

// The events that wait for none, the last one first.
fn free_of<V: RunValues>(
    alloc: Global,
    run: &TableRun<V>,
    waits: &[u32],
) -> Result<Vec<EventId>, OutOfMemory>
    requires { IsSound run.now }
{
    let mut free = Vec::new(alloc);
    let events = run.nodes() + run.design_nodes();
    for i in 0..events {
        let event = events - 1 - i;
        if event < waits.len() && waits[event] == 0 {
            free.push(EventId::new(event as u32))?;
        }
    }
    Ok(free)
}

// The event is taken: what waited for it alone is free.
fn release<V: RunValues>(
    run: &TableRun<V>,
    firsts: &Vec<usize>,
    event: EventId,
    waits: &mut [u32],
    free: &mut Vec<EventId>,
) -> Result<(), OutOfMemory> {
    if event.index() >= firsts.len() {
        return Ok(());
    }
    let arcs = run.arcs();
    for k in firsts[event.index()]..arcs.len() {
        let arc = arcs[k];
        if arc.source != event {
            return Ok(());
        }
        if arc.tokens == 0 && is_last_wait(waits, arc.target.index()) {
            free.push(arc.target)?;
        }
    }
    Ok(())
}

// Takes off one of what the event waits for. True: it was the last.
fn is_last_wait(waits: &mut [u32], event: usize) -> bool {
    if event >= waits.len() || waits[event] == 0 {
        return false;
    }
    waits[event] -= 1;
    waits[event] == 0
}
