//! Orders from at most 64 sources.
ghost use Rattle.std.specs.Prelude.{◌≡◌, ◌+◌, ◌-◌, ◌*◌, ◌<◌, ◌≤◌, ◌↔◌, ℕ, All, IfOk, IsTrue};
ghost use Rattle.std.specs.Prelude.{length, slice_index};
ghost use Rattle.std.specs.Int.{bit_at};
ghost use Rattle.ds_marked.specs.Graph.{AreEnds};
ghost use Rattle.ds_accept.specs.Masks.{IsBlock, IsFoundBy, IsFirstNotFound};

use crate::walk_search::WalkSearch;
use ds_base::EventId;
use ds_marked::Arc;
use std::alloc::{AllocError, Global};

// Orders that stand together, the bit of each one's source, and the source of each bit.
pub(crate) struct Block {
    pub(crate) sources: Vec<EventId>,
    pub(crate) bits: Vec<u32>,
}

impl Drop for Block {
    fn drop(self) {
        let Block {
            sources: _,
            bits: _,
        } = self;
    }
}

impl Block {
    // The orders from a place on, until there are more than 64 sources. Orders from one source that
    // follow each other share a bit.
    pub(crate) fn of(alloc: Global, asked: &[Arc], from: usize) -> Result<Self, AllocError>
        requires { from < length asked.now }
        ensures { IfOk result (λ b. IsBlock asked.now from b.sources.items b.bits.items) }
    {
        let mut sources: Vec<EventId> = Vec::new(alloc);
        let mut bits: Vec<u32> = Vec::new(alloc);
        for place in from..asked.len() {
            let source = asked[place].source;
            if !ends_with(sources.as_slice(), source) {
                if sources.as_slice().len() == 64 {
                    break;
                }
                sources.push(source)?;
            }
            bits.push(sources.as_slice().len() as u32 - 1)?;
        }
        Ok(Block { sources, bits })
    }

    // How many orders there are.
    pub(crate) fn len(&self) -> usize
        ensures { result ≡ length self.now.bits.items }
    {
        self.bits.as_slice().len()
    }

    // The first order whose target is not reached from its source.
    pub(crate) fn first_not_found(
        &self,
        search: &WalkSearch<'_>,
        from: usize,
        masks: &[u64],
    ) -> Option<usize>
        requires asked { AreEnds search.now.events search.now.asked.now }
        requires bound { All (λ arc. arc.tokens < search.now.bound) search.now.asked.now }
        requires block { IsBlock search.now.asked.now from self.now.sources.items
            self.now.bits.items }
        requires size { length masks.now ≡ search.now.bound * search.now.events }
        ensures { IsFirstNotFound search.now.events masks.now search.now.asked.now from
            self.now.bits.items result }
    {
        for (k, bit) in self.bits.iter().enumerate() {
            let order = &search.asked[from + k];
            if !is_found(order, *bit, search.events, search.bound, masks) {
                return Some(from + k);
            }
        }
        None
    }
}

// Whether this source is the last one.
fn ends_with(sources: &[EventId], source: EventId) -> bool
    ensures { IsTrue result → (0 < length sources.now)
        × (slice_index sources.now (length sources.now - 1) ≡ source) }
{
    match sources.last() {
        Some(last) => *last == source,
        None => false,
    }
}

// Whether the target of an order is reached from the source of this bit.
fn is_found(order: &Arc, bit: u32, events: usize, bound: usize, masks: &[u64]) -> bool
    requires bit { bit < 64 }
    requires inside { (order.now.target < events) × (order.now.tokens < bound) }
    requires size { length masks.now ≡ bound * events }
    ensures { IsTrue result ↔ IsFoundBy events masks.now order.now bit }
{
    for token_sum in 0..usize::from(order.tokens) + 1 {
        let place = token_sum * events + order.target.index();
        if has_bit(masks[place], bit) {
            return true;
        }
    }
    false
}

// Whether a word has this bit.
fn has_bit(word: u64, bit: u32) -> bool
    requires { bit < 64 }
    ensures { IsTrue result ↔ bit_at word bit ≡ 1 }
{
    (word >> bit) & 1 == 1
}
