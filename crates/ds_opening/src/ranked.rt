//! Tables by ranks.
ghost use Rattle.std.specs.Prelude.{◌≡◌, ◌<◌, All, IfOk, OnOk, length, map};
ghost use Rattle.std.specs.List.Sorted.{IsNonDecreasingBy, IsPermutation};
ghost use Rattle.ds_opening.specs.Ranked.{AreSortedByRank, ranked_of};

use ds_base::OutOfMemory;
use std::alloc::{AllocError, Global};

// A table and its rank.
#[derive(Clone, Copy)]
struct TableRank {
    rank: usize,
    table: u32,
}

/// The same tables by their ranks, the lowest first.
pub(crate) fn by_rank(
    alloc: Global,
    order: &[u32],
    ranks: &[usize],
) -> Result<Vec<u32>, OutOfMemory>
    requires { All (λ k. k < length ranks.now) order.now }
    ensures ok { IfOk result (λ v. AreSortedByRank ranks.now order.now v.items) }
{
    let mut all = with_ranks(alloc, order, ranks)?;
    sort_by_rank(&mut all)?;
    Ok(tables_of(alloc, all.as_slice())?)
}

// Each table with its rank.
fn with_ranks(alloc: Global, order: &[u32], ranks: &[usize]) -> Result<Vec<TableRank>, AllocError>
    requires { All (λ k. k < length ranks.now) order.now }
    ensures { IfOk result (λ v. v.items ≡ map (ranked_of ranks.now) order.now) }
{
    let mut all: Vec<TableRank> = Vec::with_capacity(alloc, order.len())?;
    for table in order {
        all.push(TableRank {
            rank: ranks[*table as usize],
            table: *table,
        })?;
    }
    Ok(all)
}

// Sorts by rank.
fn sort_by_rank(all: &mut Vec<TableRank>) -> Result<(), AllocError>
    ensures permuted { IsPermutation all.old.items all.new.items }
    ensures rising { OnOk result (IsNonDecreasingBy (λ r. r.rank) all.new.items) }
{
    all.sort_by_key(|ranked| ranked.rank)?;
    Ok(())
}

// The tables alone.
fn tables_of(alloc: Global, all: &[TableRank]) -> Result<Vec<u32>, AllocError>
    ensures { IfOk result (λ v. v.items ≡ map (λ r. r.table) all.now) }
{
    all.iter().map(|ranked| ranked.table).collect(alloc)
}
