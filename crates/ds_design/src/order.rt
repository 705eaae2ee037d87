//! Tables by the level of what they drive.
ghost use Rattle.std.specs.Prelude.{◌≡◌, ◌<◌, length, map, All, IfOk, OnOk};
ghost use Rattle.std.specs.List.Sorted.{IsNonDecreasingBy, IsPermutation};
ghost use Rattle.ds_design.specs.Levels.{IsSortedByLevel};
ghost use Rattle.ds_design.specs.Placed.{placed_table};

use crate::Gate;
use std::alloc::{AllocError, Global};

// The place of a table, and the level of what it drives.
#[derive(Clone, Copy)]
struct Placed {
    level: u64,
    place: u32,
}

/// These tables, given by their places, by the level of what they drive. `levels` has one for each
/// net. `AllocError` is want of memory.
pub fn by_level(
    alloc: Global,
    tables: &[Gate],
    levels: &[u64],
    places: &[u32],
) -> Result<Vec<u32>, AllocError>
    requires within { All (λ k. k < length tables.now) places.now }
    requires outputs { All (λ t. t.output < length levels.now) tables.now }
    ensures { IfOk result (λ v. IsSortedByLevel tables.now levels.now places.now v.items) }
{
    let mut all = with_levels(alloc, tables, levels, places)?;
    sort_by_level(&mut all)?;
    places_of(alloc, all.as_slice())
}

// Each table with its level.
fn with_levels(
    alloc: Global,
    tables: &[Gate],
    levels: &[u64],
    places: &[u32],
) -> Result<Vec<Placed>, AllocError>
    requires within { All (λ k. k < length tables.now) places.now }
    requires outputs { All (λ t. t.output < length levels.now) tables.now }
    ensures { IfOk result (λ v. v.items ≡ map (placed_table tables.now levels.now) places.now) }
{
    let mut all: Vec<Placed> = Vec::new(alloc);
    for place in places {
        let level = levels[tables[*place as usize].output.index()];
        all.push(Placed {
            level,
            place: *place,
        })?;
    }
    Ok(all)
}

// Sorts by level, and leaves those of one level in their order.
fn sort_by_level(all: &mut Vec<Placed>) -> Result<(), AllocError>
    ensures permuted { IsPermutation all.old.items all.new.items }
    ensures rising { OnOk result (IsNonDecreasingBy (λ p. p.level) all.new.items) }
{
    all.sort_by_key(|placed| placed.level)?;
    Ok(())
}

// The places alone.
fn places_of(alloc: Global, all: &[Placed]) -> Result<Vec<u32>, AllocError>
    ensures { IfOk result (λ v. v.items ≡ map (λ p. p.place) all.now) }
{
    all.iter().map(|placed| placed.place).collect(alloc)
}
