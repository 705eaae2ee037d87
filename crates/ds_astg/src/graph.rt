//! The graph of what was read.
ghost use Rattle.std.specs.Prelude.{◌≡◌, ◌≢◌, ◌≤◌, ◌++◌, AllPairs, None, IfOk, OnOk, length, map};
ghost use Rattle.ds_base.specs.Refusal.{IsMeant};
ghost use Rattle.ds_astg.specs.Signals.{count_events};
ghost use Rattle.ds_astg.specs.Read.{all_events, arc_of as arc_in, end_of, named_events};
ghost use Rattle.ds_astg.specs.Read.{graph_of_parts, or_zero as or_zero_in};
ghost use Rattle.ds_astg.specs.Read.{lacking as lacking_in, lacks as lacks_in};
ghost use Rattle.ds_astg.specs.Sound.{ArePlaces, IsStateSound};

use crate::fault::{AstgFault, AstgKind, AstgRefusal};
use crate::place::Place;
use crate::places::Places;
use crate::role::Role;
use crate::signals::Signals;
use crate::state::State;
use ds_base::{EventId, OutOfMemory, Refusal, Seq};
use ds_lines::{At, name};
use ds_marked::{Arc, Event, Kind, Marked};
use std::alloc::{AllocError, Global};

/// The graph of what was read, where each place has a source and a target.
pub fn graph_of(alloc: Global, state: &State<'_>) -> Result<Marked, AstgRefusal>
    requires { IsStateSound state.now }
    ensures { IsMeant result (end_of state.now) }
{
    match lacking(alloc, &state.places) {
        Err(_) => return Err(Refusal::Memory),
        Ok(Some(fault)) => return Err(Refusal::Fault(fault)),
        Ok(None) => (),
    }
    match marked(alloc, &state.signals, &state.places) {
        Err(_) => Err(Refusal::Memory),
        Ok(graph) => Ok(graph),
    }
}

// The graph of signals and places.
fn marked(alloc: Global, signals: &Signals<'_>, places: &Places<'_>) -> Result<Marked, OutOfMemory>
    requires each { length signals.now.names ≡ length signals.now.roles }
    requires sound { ArePlaces (count_events signals.now.roles) places.now }
    requires whole { lacking_in places.now.keys places.now.places ≡ None }
    ensures { IfOk result (λ g. g ≡ graph_of_parts signals.now places.now) }
{
    let events = events_of(alloc, signals)?;
    let arcs = arcs_of(alloc, places)?;
    Marked::new(alloc, events, arcs)
}

// The events of each name.
fn events_of(alloc: Global, signals: &Signals<'_>) -> Result<Seq<Event>, OutOfMemory>
    requires each { length signals.now.names ≡ length signals.now.roles }
    ensures value { IfOk result (λ e. e ≡ all_events signals.now.names signals.now.roles) }
    ensures few { length signals.now.names ≤ 65536 }
    ensures distinct { AllPairs (λ a b. a ≢ b) signals.now.names }
{
    let mut events = Seq::new(alloc);
    for i in 0..signals.len() {
        add_events(alloc, &mut events, signals.role(i), signals.name(i))?;
    }
    Ok(events)
}

// Adds the events of a name that is declared as such.
fn add_events(
    alloc: Global,
    events: &mut Seq<Event>,
    role: Role,
    name: &[u8],
) -> Result<(), OutOfMemory>
    ensures { OnOk result (events.new ≡ events.old ++ named_events role name.now) }
{
    match role {
        Role::Signal => {
            events.push(event(alloc, name, Kind::Rise)?)?;
            events.push(event(alloc, name, Kind::Fall)?)?;
        }
        Role::Dummy => events.push(event(alloc, name, Kind::Dummy)?)?,
    }
    Ok(())
}

// An event of a name.
fn event(alloc: Global, signal: &[u8], kind: Kind) -> Result<Event, AllocError>
    ensures { IfOk result (λ e. e ≡ record { signal = signal.now; kind = kind }) }
{
    Ok(Event {
        signal: name(alloc, signal)?,
        kind,
    })
}

// The arcs of the places.
fn arcs_of(alloc: Global, places: &Places<'_>) -> Result<Vec<Arc>, OutOfMemory>
    ensures { IfOk result (λ a. a.items ≡ map arc_in places.now.places) }
{
    let places = places.places().iter();
    Ok(places.map(|place| arc_of(*place)).collect(alloc)?)
}

// The arc of a place.
fn arc_of(place: Place) -> Arc
    ensures { result ≡ arc_in place }
{
    Arc {
        source: EventId::new(or_zero(place.source)),
        target: EventId::new(or_zero(place.target)),
        tokens: tokens_or_zero(place.tokens),
    }
}

// A number, 0 where there is none.
fn or_zero(number: Option<u32>) -> u32
    ensures { result ≡ or_zero_in number }
{
    match number {
        None => 0,
        Some(number) => number,
    }
}

// A number of tokens, 0 where there is none.
fn tokens_or_zero(tokens: Option<u8>) -> u8
    ensures { result ≡ or_zero_in tokens }
{
    match tokens {
        None => 0,
        Some(tokens) => tokens,
    }
}

// The fault of the first place that lacks a source or a target.
fn lacking(alloc: Global, places: &Places<'_>) -> Result<Option<AstgFault>, AllocError>
    ensures { IfOk result (λ f. f ≡ lacking_in places.now.keys places.now.places) }
{
    for i in 0..places.len() {
        let place = places.place(i);
        if lacks(place) {
            let kind = AstgKind::NotMarkedGraph(name(alloc, places.name(i))?);
            return Ok(Some(At {
                line: place.line,
                kind,
            }));
        }
    }
    Ok(None)
}

// Whether a place lacks a source or a target.
fn lacks(place: Place) -> bool
    ensures { result ≡ lacks_in place }
{
    !(place.source.is_some() && place.target.is_some())
}
