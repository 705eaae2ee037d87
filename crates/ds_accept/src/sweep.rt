//! Masks that are or'd along arcs.
ghost use Rattle.std.specs.Prelude.{◌≡◌, ◌≢◌, ◌+◌, ◌*◌, ◌<◌, ◌≤◌, ◌^◌, ◌↔◌, ℕ, All, IfOk, IsTrue};
ghost use Rattle.std.specs.Prelude.{length, slice_index, slice_set, false, bit_or, Contains};
ghost use Rattle.ds_marked.specs.Graph.{AreEnds};
ghost use Rattle.ds_accept.specs.Masks.{AreBegun, AreAllClosed, IsClosedAt, IsSwept};

use ds_base::{EventId, OutOfMemory};
use ds_marked::Arc;
use std::alloc::Global;

// The masks before the first sweep: each source is reached from itself, without tokens.
pub(crate) fn begun(
    alloc: Global,
    sources: &[EventId],
    size: usize,
) -> Result<Vec<u64>, OutOfMemory>
    requires few { length sources.now ≤ 64 }
    requires inside { All (λ v. v < size) sources.now }
    ensures size { IfOk result (λ masks. length masks.items ≡ size) }
    ensures begun { IfOk result (λ masks. AreBegun sources.now (length sources.now) masks.items) }
{
    let mut masks: Vec<u64> = vec![in alloc; 0; size]?;
    for (bit, source) in sources.iter().enumerate() {
        masks[source.index()] |= 1 << bit;
    }
    Ok(masks)
}

// Takes each arc at each sum of tokens once. Whether a mask has changed.
pub(crate) fn sweep(arcs: &[Arc], events: usize, bound: usize, masks: &mut [u64]) -> bool
    requires ends { AreEnds events arcs.now }
    requires size { length masks.old ≡ bound * events }
    requires few { bound ≤ 256 }
    ensures step { IsSwept arcs.now events bound (AreAllClosed arcs.now events bound bound)
        masks.old masks.new result }
    ensures fits { (i : ℕ) → slice_index masks.new i < 2 ^ 64 }
{
    let mut changed = false;
    for token_sum in 0..bound {
        let more = sweep_sum(arcs, events, bound, token_sum, masks);
        changed = changed || more;
    }
    changed
}

// Takes each arc at a sum of tokens once.
fn sweep_sum(arcs: &[Arc], events: usize, bound: usize, token_sum: usize, masks: &mut [u64]) -> bool
    requires ends { AreEnds events arcs.now }
    requires size { length masks.old ≡ bound * events }
    requires few { (token_sum < bound) × (bound ≤ 256) }
    ensures { IsSwept arcs.now events bound
        (λ masks. All (IsClosedAt events bound masks token_sum) arcs.now) masks.old masks.new
        result }
{
    let mut changed = false;
    for arc in arcs {
        let more = sweep_arc(arc, events, bound, token_sum, masks);
        changed = changed || more;
    }
    changed
}

// What is reached at the source of an arc is reached at its target, with its tokens more.
fn sweep_arc(arc: &Arc, events: usize, bound: usize, token_sum: usize, masks: &mut [u64]) -> bool
    requires ends { (arc.now.source < events) × (arc.now.target < events) }
    requires size { length masks.old ≡ bound * events }
    requires few { (token_sum < bound) × (bound ≤ 256) }
    ensures { (arcs : _) → Contains arcs arc.now → IsSwept arcs events bound
        (λ masks. IsClosedAt events bound masks token_sum arc.now) masks.old masks.new result }
{
    let next = token_sum + usize::from(arc.tokens);
    if next < bound {
        let from = token_sum * events + arc.source.index();
        pour(masks, from, next * events + arc.target.index())
    } else {
        false
    }
}

// Ors the mask at one place into that at another. Whether it has changed.
fn pour(masks: &mut [u64], from: usize, to: usize) -> bool
    requires inside { (from < length masks.old) × (to < length masks.old) }
    ensures after { masks.new ≡ slice_set masks.old to
        (bit_or (slice_index masks.old to) (slice_index masks.old from)) }
    ensures changed { IsTrue result → bit_or (slice_index masks.old to)
        (slice_index masks.old from) ≢ slice_index masks.old to }
    ensures same { result ≡ false → bit_or (slice_index masks.old to)
        (slice_index masks.old from) ≡ slice_index masks.old to }
{
    let old = masks[to];
    let new = old | masks[from];
    masks[to] = new;
    new != old
}
