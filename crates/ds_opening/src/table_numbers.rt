//! Numbers without gaps, in the order in which classes come.
ghost use Rattle.std.specs.Prelude.{◌≡◌, ◌+◌, ◌<◌, ◌^◌, ℕ, All, Contains, IfOk, length};
ghost use Rattle.std.specs.Prelude.{slice_index};
ghost use Rattle.ds_opening.specs.Numbers.{AreRenumbered, AreOneLess, AreClassPlaces};

use crate::classes::Classes;
use ds_base::OutOfMemory;
use std::alloc::Global;

/// A number for each table, below the count.
#[derive(Drop)]
pub(crate) struct TableNumbers {
    pub(crate) of: Vec<u32>,
    pub(crate) count: usize,
}

/// Numbers that are the same where these classes are, in the order in which the classes of these
/// tables come.
pub(crate) fn numbered(
    alloc: Global,
    classes: &Classes,
    order: &[u32],
) -> Result<TableNumbers, OutOfMemory>
    requires below { All (λ n. n < classes.now.count) classes.now.of.items }
    requires order { All (λ k. k < length classes.now.of.items) order.now }
    requires all { (k : ℕ) → k < length classes.now.of.items → Contains order.now k }
    requires few { length order.now < 2 ^ 32 }
    ensures ok { IfOk result
        (λ v. AreRenumbered order.now classes.now.of.items v.count v.of.items) }
{
    let (places, count) = places_of(alloc, classes, order)?;
    let of = one_less(alloc, classes.of.as_slice(), places.as_slice())?;
    Ok(TableNumbers {
        of,
        count: count as usize,
    })
}

// One more than the number of each class, 0 for those of no table, and how many have come.
fn places_of(
    alloc: Global,
    classes: &Classes,
    order: &[u32],
) -> Result<(Vec<u32>, u32), OutOfMemory>
    requires below { All (λ n. n < classes.now.count) classes.now.of.items }
    requires order { All (λ k. k < length classes.now.of.items) order.now }
    requires few { length order.now < 2 ^ 32 }
    ensures ok { IfOk result
        (λ r. AreClassPlaces order.now classes.now.of.items classes.now.count r.0.items r.1) }
{
    let mut places: Vec<u32> = vec![in alloc; 0; classes.count]?;
    let mut next: u32 = 0;
    for table in order {
        let class = classes.of[*table as usize];
        if places[class] == 0 {
            next += 1;
            places[class] = next;
        }
    }
    Ok((places, next))
}

// For each class one less than what stands in its place.
fn one_less(alloc: Global, classes: &[usize], places: &[u32]) -> Result<Vec<u32>, OutOfMemory>
    requires within { All (λ n. n < length places.now) classes.now }
    requires some { (k : ℕ) → k < length classes.now
        → 0 < slice_index places.now (slice_index classes.now k) }
    ensures ok { IfOk result (λ v. AreOneLess classes.now places.now v.items) }
{
    let mut of = Vec::with_capacity(alloc, classes.len())?;
    for class in classes {
        of.push(places[*class] - 1)?;
    }
    Ok(of)
}
