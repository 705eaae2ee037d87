//! Sums that are lowered along arcs, those out of the events with the least sums first.
ghost use Rattle.std.specs.Prelude.{◌<◌, ◌^◌, length, OnOk};
ghost use Rattle.ds_marked.specs.Graph.{AreEnds};
ghost use Rattle.ds_accept.specs.Lowered.{AreSumsBounded, AreLowered};

use crate::sums::lower;
use ds_base::{EventId, OutOfMemory};
use ds_marked::Marked;
use std::alloc::Global;
use std::collections::BinaryHeap;

// An event whose sum has fallen, and how far that is below the greatest number: so the greatest of
// these has the least sum.
#[derive(Clone, Copy, PartialEq, Eq, PartialOrd, Ord)]
struct Fallen {
    below: u64,
    event: EventId,
}

// Lowers sums as far as arcs out of an event lead. Each arc is taken once, by the least sum.
pub(crate) fn lower_nearest(
    alloc: Global,
    graph: &Marked,
    from: EventId,
    sums: &mut Vec<Option<u64>>,
) -> Result<(), OutOfMemory>
    requires ends { AreEnds (length sums.old.items) graph.now.arcs }
    requires few { length sums.old.items < 2 ^ 32 }
    requires bounded { AreSumsBounded sums.old.items }
    ensures { OnOk result (AreLowered graph.now.arcs sums.old.items sums.new.items) }
{
    let mut heap: BinaryHeap<Fallen> = BinaryHeap::new(alloc);
    heap.push(fallen_to(sums.as_slice(), from))?;
    for _ in 0..graph.arcs().len() + 1 {
        let Some(next) = heap.pop() else {
            break;
        };
        if next == fallen_to(sums.as_slice(), next.event) {
            lower_from(graph, next.event, sums, &mut heap)?;
        }
    }
    Ok(())
}

// The event with its sum as it is now.
fn fallen_to(sums: &[Option<u64>], event: EventId) -> Fallen {
    let below = match sums.get(event.index()) {
        Some(Some(sum)) => u64::MAX - *sum,
        _ => 0,
    };
    Fallen { below, event }
}

// Takes the arcs out of an event.
fn lower_from(
    graph: &Marked,
    event: EventId,
    sums: &mut Vec<Option<u64>>,
    heap: &mut BinaryHeap<Fallen>,
) -> Result<(), OutOfMemory>
    requires ends { AreEnds (length sums.old.items) graph.now.arcs }
    requires few { length sums.old.items < 2 ^ 32 }
    requires bounded { AreSumsBounded sums.old.items }
    ensures { OnOk result (AreLowered graph.now.arcs sums.old.items sums.new.items) }
{
    let range = graph.arcs_from(event);
    for place in range.start..range.end {
        if lower_at(graph, place, sums) {
            let target = graph.arcs()[place].target;
            heap.push(fallen_to(sums.as_slice(), target))?;
        }
    }
    Ok(())
}

// Takes one arc. Whether a sum has fallen.
fn lower_at(graph: &Marked, place: usize, sums: &mut Vec<Option<u64>>) -> bool
    requires inside { place < length graph.now.arcs }
    requires ends { AreEnds (length sums.old.items) graph.now.arcs }
    requires few { length sums.old.items < 2 ^ 32 }
    requires bounded { AreSumsBounded sums.old.items }
    ensures { AreLowered graph.now.arcs sums.old.items sums.new.items }
{
    lower(&graph.arcs()[place], sums)
}
