//! Ranks of three events, or a cycle of them.
ghost use Rattle.std.specs.Prelude.{◌≡◌, length};

use crate::graphs::graph;
use ds_base::EventId;
use ds_marked::{Arc, Marked};
use ds_rank::{RankFault, check_ranks, rank};
use std::alloc::Global;

// Whether the events have the ranks 0, 2 and 1.
fn is_ranked(alloc: Global, graph: &Marked) -> bool
    requires { length graph.now.events ≡ 3 }
{
    match rank(alloc, graph) {
        Ok(ranks) => {
            let (first, second) = (ranks.at(EventId::new(0)), ranks.at(EventId::new(1)));
            let ranked = (first, second, ranks.at(EventId::new(2))) == (0, 2, 1);
            ranked && check_ranks(graph, &ranks)
        }
        Err(_) => false,
    }
}

#[test]
fn ranks_rise_along_arcs_without_tokens(rt: HostRuntime) {
    let arcs = [Arc::of(2, 1, 0), Arc::of(0, 2, 0), Arc::of(1, 0, 1)];
    let Ok(graph) = graph(rt.alloc(), &arcs) else {
        panic!(rt; "memory");
    };
    assert!(rt; is_ranked(rt.alloc(), &graph));
}

// Whether the events 1 and 2 are told as a cycle.
fn has_cycle(alloc: Global, graph: &Marked) -> bool {
    match rank(alloc, graph) {
        Err(RankFault::Cycle(events)) => {
            events.as_slice() == [EventId::new(1), EventId::new(2)].as_slice()
        }
        _ => false,
    }
}

// The events 1 and 2 wait for each other.
#[test]
fn a_cycle_begins_at_its_least_event(rt: HostRuntime) {
    let arcs = [Arc::of(2, 1, 0), Arc::of(0, 1, 0), Arc::of(1, 2, 0)];
    let Ok(graph) = graph(rt.alloc(), &arcs) else {
        panic!(rt; "memory");
    };
    assert!(rt; has_cycle(rt.alloc(), &graph));
}
