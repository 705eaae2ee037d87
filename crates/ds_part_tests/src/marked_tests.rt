//! A signal that rises and falls, and three arcs between the two events.
ghost use Rattle.std.specs.Prelude.{◌≡◌, IfOk, length};

use ds_base::{ArcId, EventId, OutOfMemory, Seq};
use ds_marked::{Arc, Blocked, Counts, Event, Kind, Marked};
use std::alloc::Global;

fn graph(alloc: Global) -> Result<Marked, OutOfMemory>
    ensures { IfOk result (λ g. length g.events ≡ 2) }
{
    let mut events = Seq::new(alloc);
    events.push(event(alloc, Kind::Rise))?;
    events.push(event(alloc, Kind::Fall))?;
    let arcs = [Arc::of(1, 0, 1), Arc::of(0, 1, 2), Arc::of(0, 1, 0)];
    Marked::new(alloc, events, Vec::from_array(alloc, arcs)?)
}

fn event(alloc: Global, kind: Kind) -> Event
    ensures { result.kind ≡ kind }
{
    let signal = Seq::new(alloc);
    Event { signal, kind }
}

// Whether the arcs stand in order, each with its tokens and ends.
fn are_in_order(graph: &Marked) -> bool
    requires { length graph.now.events ≡ 2 }
{
    let (rise, fall, last) = (EventId::new(0), EventId::new(1), ArcId::new(2));
    let sorted = [Arc::of(0, 1, 0), Arc::of(0, 1, 2), Arc::of(1, 0, 1)];
    if graph.arcs().len() != 3 || graph.arcs() != sorted.as_slice() {
        return false;
    }
    let ends = (graph.source(last), graph.target(last)) == (fall, rise);
    ends && graph.tokens(last) == 1 && graph.events()[1].kind == Kind::Fall
}

// Whether the arcs from and into an event are found.
fn are_found(graph: &Marked) -> bool
    requires { length graph.now.events ≡ 2 }
{
    let (rise, fall) = (EventId::new(0), EventId::new(1));
    if graph.arcs().len() != 3 {
        return false;
    }
    let range = graph.arcs_from(rise);
    let first = (graph.into_first(fall), graph.into_first(rise));
    let next = (
        graph.into_next(ArcId::new(0)),
        graph.into_next(ArcId::new(1)),
    );
    (range.start, range.end) == (0, 2)
        && first == (Some(ArcId::new(0)), Some(ArcId::new(2)))
        && next == (Some(ArcId::new(1)), None)
}

#[test]
fn arcs_stand_in_order_and_are_found(rt: HostRuntime) {
    let Ok(graph) = graph(rt.alloc()) else {
        panic!(rt; "memory");
    };
    assert!(rt; are_in_order(&graph) && are_found(&graph));
}

// Whether the rise is enabled up to its limit, and the fall is not.
fn is_rise_due(graph: &Marked, counts: &Counts) -> bool
    requires graph { length graph.now.events ≡ 2 }
    requires counts { length counts.now ≡ 2 }
{
    let (rise, fall) = (EventId::new(0), EventId::new(1));
    graph.enabled(counts, fall, 9) == Err(Blocked::Arc(ArcId::new(0)))
        && graph.enabled(counts, rise, 0) == Err(Blocked::Limit)
        && graph.enabled(counts, rise, 9) == Ok(())
}

// Whether the rise has fired once and waits for the fall, which is enabled.
fn is_fall_due(graph: &Marked, counts: &Counts) -> bool
    requires graph { length graph.now.events ≡ 2 }
    requires counts { length counts.now ≡ 2 }
{
    let (rise, fall) = (EventId::new(0), EventId::new(1));
    (counts.len(), counts.at(rise), counts.at(fall)) == (2, 1, 0)
        && graph.enabled(counts, rise, 9) == Err(Blocked::Arc(ArcId::new(2)))
        && graph.enabled(counts, rise, 1) == Err(Blocked::Limit)
        && graph.enabled(counts, fall, 9) == Ok(())
}

// Whether the rise fires and then waits for the fall.
fn fires_and_waits(alloc: Global, graph: &Marked) -> Result<bool, OutOfMemory>
    requires { length graph.now.events ≡ 2 }
{
    let mut counts = Counts::zero(alloc, 2)?;
    let before = is_rise_due(graph, &counts);
    counts.add_one(EventId::new(0));
    Ok(before && is_fall_due(graph, &counts))
}

// The rise has a token. Once it has fired, it waits for the fall.
#[test]
fn an_event_waits_for_tokens_and_for_its_limit(rt: HostRuntime) {
    let Ok(graph) = graph(rt.alloc()) else {
        panic!(rt; "memory");
    };
    assert!(rt; matches!(fires_and_waits(rt.alloc(), &graph), Ok(true)));
}
