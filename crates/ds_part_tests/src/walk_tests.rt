//! Walks along the arcs of events in a row, with one arc back.
ghost use Rattle.std.specs.Prelude.{◌<◌, ◌≤◌, ℕ, IfOk, Contains, All, length};
ghost use Rattle.ds_marked.specs.Graph.{AreEnds};

use crate::graphs::graph;
use ds_accept::{first_unmet, least_sums};
use ds_base::{EventId, OutOfMemory};
use ds_marked::Arc;
use std::alloc::Global;

// The events, the last one first.
fn order() -> [EventId; 3]
    ensures { (v : ℕ) → v < 3 → Contains result v }
{
    [EventId::new(2), EventId::new(1), EventId::new(0)]
}

// More than 64 times the source changes, and the last order is the first that no walk gives.
fn long(alloc: Global) -> Result<Vec<Arc>, OutOfMemory>
    ensures { IfOk result (λ asked. AreEnds 3 asked.items) }
{
    let mut asked: Vec<Arc> = Vec::new(alloc);
    for _ in 0..100 {
        asked.push(Arc::of(0, 2, 0))?;
        asked.push(Arc::of(1, 0, 1))?;
    }
    asked.push(Arc::of(1, 0, 0))?;
    Ok(asked)
}

// The place of the first of these orders that no walk along these arcs gives.
fn unmet(alloc: Global, arcs: &[Arc], asked: &[Arc]) -> Result<Option<usize>, OutOfMemory>
    requires ends { All (λ arc. (arc.source < 3) × (arc.target < 3)) arcs.now }
    requires few { length arcs.now ≤ 4 }
    requires asked { AreEnds 3 asked.now }
{
    let graph = graph(alloc, arcs)?;
    first_unmet(alloc, &graph, &order(), asked)
}

// The same of more orders than 64.
fn unmet_of_long(alloc: Global, arcs: &[Arc]) -> Result<Option<usize>, OutOfMemory>
    requires ends { All (λ arc. (arc.source < 3) × (arc.target < 3)) arcs.now }
    requires few { length arcs.now ≤ 4 }
{
    let asked = long(alloc)?;
    unmet(alloc, arcs, &asked)
}

// From 2 to 1 there is a walk of one token, by 0.
#[test]
fn an_order_is_given_by_a_walk(rt: HostRuntime) {
    let alloc = rt.alloc();
    let arcs = [
        Arc::of(0, 1, 0),
        Arc::of(1, 2, 0),
        Arc::of(2, 0, 1),
        Arc::of(0, 2, 3),
    ];
    let given = [
        Arc::of(0, 2, 0),
        Arc::of(2, 1, 1),
        Arc::of(2, 2, 0),
        Arc::of(1, 1, 1),
    ];
    let lacking = [Arc::of(0, 2, 1), Arc::of(2, 1, 0), Arc::of(1, 0, 0)];
    assert!(rt; matches!(unmet(alloc, &arcs, &given), Ok(None)));
    assert!(rt; matches!(unmet(alloc, &arcs, &lacking), Ok(Some(1))));
    assert!(rt; matches!(unmet_of_long(alloc, &arcs), Ok(Some(200))));
}

// Whether these are the least sums from an event along these arcs.
fn are_sums(
    alloc: Global,
    arcs: &[Arc],
    from: u32,
    want: &[Option<u64>],
) -> Result<bool, OutOfMemory>
    requires ends { All (λ arc. (arc.source < 3) × (arc.target < 3)) arcs.now }
    requires few { length arcs.now ≤ 4 }
    requires from { from < 3 }
{
    let graph = graph(alloc, arcs)?;
    let sums = least_sums(alloc, &graph, &order(), EventId::new(from))?;
    Ok(sums.as_slice() == want)
}

// Nothing leads to the event 0, and two arcs from it to the event 2.
#[test]
fn the_least_sums_are_those_of_walks(rt: HostRuntime) {
    let alloc = rt.alloc();
    let arcs = [
        Arc::of(0, 1, 1),
        Arc::of(1, 2, 0),
        Arc::of(2, 1, 1),
        Arc::of(0, 2, 3),
    ];
    let first = [Some(0), Some(1), Some(1)];
    assert!(rt; matches!(are_sums(alloc, &arcs, 0, &first), Ok(true)));
    let second = [None, Some(0), Some(0)];
    assert!(rt; matches!(are_sums(alloc, &arcs, 1, &second), Ok(true)));
}

// The events lead to each other without tokens, both ways along a row, against the order.
#[test]
fn an_order_is_given_along_a_knot(rt: HostRuntime) {
    let arcs = [
        Arc::of(2, 0, 0),
        Arc::of(0, 2, 0),
        Arc::of(0, 1, 0),
        Arc::of(1, 0, 0),
    ];
    let given = [Arc::of(2, 1, 0), Arc::of(1, 2, 0), Arc::of(2, 2, 0)];
    assert!(rt; matches!(unmet(rt.alloc(), &arcs, &given), Ok(None)));
}
