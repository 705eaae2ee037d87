//! The groups of each cone, in the order of their numbers.
ghost use Rattle.std.specs.Prelude.{◌≡◌, ◌≤◌, ◌<◌, All, IfOk, length};
ghost use Rattle.ds_opening.specs.Classes.{HasTables};
ghost use Rattle.ds_opening.specs.Lists.{AreFound, AreLists, IsListOf};

use crate::table_numbers::TableNumbers;
use ds_base::{OutOfMemory, Seq};
use ds_settle::Cone;
use std::alloc::Global;

/// The numbers of each cone's tables, each once, in their order.
pub(crate) fn lists_of(
    alloc: Global,
    cones: &[Cone],
    numbers: &TableNumbers,
) -> Result<Vec<Seq<u32>>, OutOfMemory>
    requires tables { All (HasTables (length numbers.now.of.items)) cones.now }
    requires below { All (λ n. n < numbers.now.count) numbers.now.of.items }
    ensures ok { IfOk result (λ v. AreLists cones.now numbers.now.of.items v.items) }
{
    let mut seen: Vec<usize> = vec![in alloc; 0; numbers.count]?;
    let mut lists = Vec::with_capacity(alloc, cones.len())?;
    for (i, cone) in cones.iter().enumerate() {
        lists.push(list_of(
            alloc,
            cone.tables(),
            numbers.of.as_slice(),
            &mut seen,
            i + 1,
        )?)?;
    }
    Ok(lists)
}

// The numbers of these tables, each once, in their order. Where a number was found its place in
// `seen` is the stamp.
fn list_of(
    alloc: Global,
    tables: &[u32],
    of: &[u32],
    seen: &mut Vec<usize>,
    stamp: usize,
) -> Result<Seq<u32>, OutOfMemory>
    requires tables { All (λ k. k < length of.now) tables.now }
    requires below { All (λ n. n < length seen.old.items) of.now }
    requires unseen { All (λ s. s < stamp) seen.old.items }

    ensures ok { IfOk result (IsListOf tables.now of.now) }
    ensures same { length seen.new.items ≡ length seen.old.items }
    ensures seen { All (λ s. s ≤ stamp) seen.new.items }
{
    let mut list = found(alloc, tables, of, seen, stamp)?.into_vec();
    list.sort_unstable();
    Ok(Seq::of(list))
}

// The numbers of these tables, each once. Where a number was found its place in `seen` is the
// stamp.
fn found(
    alloc: Global,
    tables: &[u32],
    of: &[u32],
    seen: &mut Vec<usize>,
    stamp: usize,
) -> Result<Seq<u32>, OutOfMemory>
    requires tables { All (λ k. k < length of.now) tables.now }
    requires below { All (λ n. n < length seen.old.items) of.now }
    requires unseen { All (λ s. s < stamp) seen.old.items }

    ensures ok { IfOk result (AreFound tables.now of.now) }
    ensures same { length seen.new.items ≡ length seen.old.items }
    ensures seen { All (λ s. s ≤ stamp) seen.new.items }
{
    let mut list = Seq::new(alloc);
    for table in tables {
        let number = of[*table as usize];
        let place = number as usize;
        if seen[place] != stamp {
            seen[place] = stamp;
            list.push(number)?;
        }
    }
    Ok(list)
}
