//! The least sums of tokens along walks from one event.
ghost use Rattle.std.specs.Prelude.{◌≡◌, ◌<◌, ◌^◌, ◌↔◌, ℕ, All, Contains, IfOk, IsTrue, length};
ghost use Rattle.std.specs.Prelude.{None, Some, replicate};
ghost use Rattle.ds_marked.specs.Graph.{AreEnds};
ghost use Rattle.ds_accept.specs.Sums.{AreLeastSums};
ghost use Rattle.ds_accept.specs.Lowered.{AreSumsBounded, AreWalkSums, IsBelow, IsLowAt};
ghost use Rattle.ds_accept.specs.Lowered.{IsLowering};
ghost use Rattle.ds_accept.specs.Lowered.{sum_at};

use crate::arcs::arcs_by;
use crate::nearest::lower_nearest;
use ds_base::{EventId, OutOfMemory, Seq};
use ds_marked::{Arc, Marked};
use std::alloc::{AllocError, Global};

/// For each event the least sum of tokens along walks to it, or none where there is no walk. The
/// events' order is as in `first_unmet`.
pub fn least_sums(
    alloc: Global,
    graph: &Marked,
    order: &[EventId],
    from: EventId,
) -> Result<Seq<Option<u64>>, OutOfMemory>
    requires from { from < length graph.now.events }
    requires order { (v : ℕ) → v < length graph.now.events → Contains order.now v }
    ensures ok { IfOk result (AreLeastSums graph.now from) }
{
    let events = graph.events().len();
    let arcs = arcs_by(Vec::new(alloc), graph, order)?;
    let mut sums = no_sums(alloc, events)?;
    sums[from.index()] = Some(0);
    lower_nearest(alloc, graph, from, &mut sums)?;
    lower_all(arcs.as_slice(), &mut sums);
    Ok(Seq::of(sums))
}

// None for each event.
fn no_sums(alloc: Global, events: usize) -> Result<Vec<Option<u64>>, AllocError>
    ensures { IfOk result (λ sums. sums.items ≡ replicate events None) }
{
    vec![in alloc; None; events]
}

// Lowers sums along arcs until none falls.
fn lower_all(arcs: &[Arc], sums: &mut Vec<Option<u64>>)
    requires ends { AreEnds (length sums.old.items) arcs.now }
    requires few { length sums.old.items < 2 ^ 32 }
    requires bounded { AreSumsBounded sums.old.items }
    ensures size { length sums.new.items ≡ length sums.old.items }
    ensures walks { (from : ℕ) → AreWalkSums arcs.now from sums.old.items
        → AreWalkSums arcs.now from sums.new.items }
    ensures start { (from : ℕ) → sum_at sums.old.items from ≡ Some 0
        → sum_at sums.new.items from ≡ Some 0 }
    ensures low { All (IsLowAt sums.new.items) arcs.now }
{
    'sweeps: while lower_each(arcs, sums) {}
}

// Takes each arc once. Whether a sum has fallen.
fn lower_each(arcs: &[Arc], sums: &mut Vec<Option<u64>>) -> bool
    requires ends { AreEnds (length sums.old.items) arcs.now }
    requires few { length sums.old.items < 2 ^ 32 }
    requires bounded { AreSumsBounded sums.old.items }
    ensures { IsLowering arcs.now (λ sums. All (IsLowAt sums) arcs.now)
        sums.old.items sums.new.items result }
{
    let mut changed = false;
    for arc in arcs {
        let more = lower(arc, sums);
        changed = changed || more;
    }
    changed
}

// The sum at the source of an arc and its tokens, at its target, where that is less. Whether it is.
pub(crate) fn lower(arc: &Arc, sums: &mut Vec<Option<u64>>) -> bool
    requires ends { (arc.now.source < length sums.old.items)
        × (arc.now.target < length sums.old.items) }
    requires few { length sums.old.items < 2 ^ 32 }
    requires bounded { AreSumsBounded sums.old.items }
    ensures { (arcs : _) → Contains arcs arc.now → IsLowering arcs
        (λ sums. IsLowAt sums arc.now) sums.old.items sums.new.items result }
{
    let source = sums[arc.source.index()];
    let Some(sum) = source else {
        return false;
    };
    let next = sum + u64::from(arc.tokens);
    let target = sums[arc.target.index()];
    if is_below(next, target) {
        sums[arc.target.index()] = Some(next);
        true
    } else {
        false
    }
}

// Whether a number is below a sum, or there is none.
fn is_below(number: u64, sum: Option<u64>) -> bool
    ensures { IsTrue result ↔ IsBelow number sum }
{
    match sum {
        Some(sum) => number < sum,
        None => true,
    }
}
