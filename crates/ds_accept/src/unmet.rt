//! The first order that no walk gives.
ghost use Rattle.std.specs.Prelude.{◌≡◌, ◌+◌, ◌*◌, ◌<◌, ◌≤◌, ◌^◌, ℕ, All, Contains, IfOk, length};
ghost use Rattle.std.specs.Prelude.{map};
ghost use Rattle.ds_marked.specs.Graph.{AreEnds};
ghost use Rattle.ds_accept.specs.Given.{IsFirstUnmet, IsFirstUnmetBelow, capped};
ghost use Rattle.ds_accept.specs.Masks.{AreBegun, IsBlock, along_arcs};

use crate::ahead::arcs_ahead;
use crate::arcs::arcs_by;
use crate::block::Block;
use crate::capped::capped_orders;
use crate::sweep::{begun, sweep};
use crate::walk_search::WalkSearch;
use ds_base::{EventId, OutOfMemory};
use ds_marked::{Arc, Marked};
use std::alloc::Global;

/// The place of the first asked order that no walk gives, or none where walks give them all. The
/// events' order should be one along the arcs without tokens, where there is one: it is that in
/// which they are looked at.
pub fn first_unmet(
    alloc: Global,
    graph: &Marked,
    order: &[EventId],
    asked: &[Arc],
) -> Result<Option<usize>, OutOfMemory>
    requires ends { AreEnds (length graph.now.events) asked.now }
    requires order { (v : ℕ) → v < length graph.now.events → Contains order.now v }
    ensures ok { IfOk result (IsFirstUnmet graph.now asked.now) }
{
    if asked.is_empty() {
        return Ok(None);
    }
    let arcs = arcs_by(arcs_ahead(alloc, graph, order)?, graph, order)?;
    let search = WalkSearch {
        arcs: arcs.as_slice(),
        asked,
        events: graph.events().len(),
        bound: usize::from(most_tokens(asked)) + 1,
    };
    first_along(alloc, &search)
}

// The greatest number of tokens.
fn most_tokens(asked: &[Arc]) -> u8
    ensures { All (λ arc. arc.tokens ≤ result) asked.now }
{
    let mut most = 0;
    for arc in asked {
        if most < arc.tokens {
            most = arc.tokens;
        }
    }
    most
}

// The first order that no walk gives, block by block.
fn first_along(alloc: Global, search: &WalkSearch<'_>) -> Result<Option<usize>, OutOfMemory>
    requires ends { AreEnds search.now.events search.now.arcs.now }
    requires asked { AreEnds search.now.events search.now.asked.now }
    requires bound { All (λ arc. arc.tokens < search.now.bound) search.now.asked.now }
    requires few { (0 < search.now.bound) × (search.now.bound ≤ 256)
        × (search.now.events < 2 ^ 32) }
    ensures { IfOk result (IsFirstUnmet (along_arcs search.now.arcs.now) search.now.asked.now) }
{
    let few = capped_orders(alloc, search.asked)?;
    let mut from = 0;
    while from < search.asked.len() {
        let block = Block::of(alloc, search.asked, from)?;
        let unmet = unmet_of(alloc, search, few.as_slice(), from, &block)?;
        match unmet {
            Some(place) => return Ok(Some(place)),
            None => from += block.len(),
        }
    }
    Ok(None)
}

// The first order of a block that no walk gives. With a bound above two it first tries whether
// walks of at most one token give them all: mostly they do.
fn unmet_of(
    alloc: Global,
    search: &WalkSearch<'_>,
    few: &[Arc],
    from: usize,
    block: &Block,
) -> Result<Option<usize>, OutOfMemory>
    requires ends { AreEnds search.now.events search.now.arcs.now }
    requires asked { AreEnds search.now.events search.now.asked.now }
    requires bound { All (λ arc. arc.tokens < search.now.bound) search.now.asked.now }
    requires few { (0 < search.now.bound) × (search.now.bound ≤ 256)
        × (search.now.events < 2 ^ 32) }
    requires block { IsBlock search.now.asked.now from block.now.sources.items
        block.now.bits.items }
    requires capped { few.now ≡ map capped search.now.asked.now }
    ensures { IfOk result (IsFirstUnmetBelow (along_arcs search.now.arcs.now)
        search.now.asked.now from (from + length block.now.bits.items)) }
{
    if search.bound <= 2 {
        return unmet_in(alloc, search, from, block);
    }
    let quick = WalkSearch {
        arcs: search.arcs,
        asked: few,
        events: search.events,
        bound: 2,
    };
    let unmet = unmet_in(alloc, &quick, from, block)?;
    match unmet {
        None => Ok(None),
        Some(_) => unmet_in(alloc, search, from, block),
    }
}

// The same, by all sums at once.
fn unmet_in(
    alloc: Global,
    search: &WalkSearch<'_>,
    from: usize,
    block: &Block,
) -> Result<Option<usize>, OutOfMemory>
    requires ends { AreEnds search.now.events search.now.arcs.now }
    requires asked { AreEnds search.now.events search.now.asked.now }
    requires bound { All (λ arc. arc.tokens < search.now.bound) search.now.asked.now }
    requires few { (0 < search.now.bound) × (search.now.bound ≤ 256)
        × (search.now.events < 2 ^ 32) }
    requires block { IsBlock search.now.asked.now from block.now.sources.items
        block.now.bits.items }
    ensures { IfOk result (IsFirstUnmetBelow (along_arcs search.now.arcs.now)
        search.now.asked.now from (from + length block.now.bits.items)) }
{
    let size = search.bound * search.events;
    let mut masks = begun(alloc, block.sources.as_slice(), size)?;
    Ok(unmet_by(search, from, block, masks.as_mut_slice()))
}

// The same, by masks in which each source is reached from itself.
fn unmet_by(search: &WalkSearch<'_>, from: usize, block: &Block, masks: &mut [u64]) -> Option<usize>
    requires ends { AreEnds search.now.events search.now.arcs.now }
    requires asked { AreEnds search.now.events search.now.asked.now }
    requires bound { All (λ arc. arc.tokens < search.now.bound) search.now.asked.now }
    requires few { search.now.bound ≤ 256 }
    requires block { IsBlock search.now.asked.now from block.now.sources.items
        block.now.bits.items }
    requires size { length masks.old ≡ search.now.bound * search.now.events }
    requires begun { AreBegun block.now.sources.items
        (length block.now.sources.items) masks.old }
    ensures { IsFirstUnmetBelow (along_arcs search.now.arcs.now) search.now.asked.now
        from (from + length block.now.bits.items) result }
{
    'sweeps: while sweep(search.arcs, search.events, search.bound, masks) {
        if block.first_not_found(search, from, masks).is_none() {
            return None;
        }
    }
    block.first_not_found(search, from, masks)
}
