//! The tables by how many cones lack them, the fewest first.
ghost use Rattle.std.specs.Prelude.{◌≢◌, ◌<◌, All, AllPairs, IfOk, length, slice_index};
ghost use Rattle.ds_opening.specs.Classes.{HasTables};
ghost use Rattle.ds_opening.specs.Lacking.{AreLacking, AreTaken, IsByLacking};

use crate::ranked::by_rank;
use ds_base::OutOfMemory;
use ds_settle::Cone;
use std::alloc::Global;

/// The same tables by how many of these cones lack them, the fewest first.
pub(crate) fn by_lacking(
    alloc: Global,
    cones: &[Cone],
    order: &[u32],
    tables: usize,
) -> Result<Vec<u32>, OutOfMemory>
    requires cones { All (HasTables tables) cones.now }
    requires order { All (λ k. k < tables) order.now }
    ensures ok { IfOk result (λ v. IsByLacking cones.now order.now v.items) }
{
    let lacking = lacking_of(alloc, cones, tables)?;
    by_rank(alloc, order, lacking.as_slice())
}

// How many of these cones lack each of so many tables.
fn lacking_of(alloc: Global, cones: &[Cone], tables: usize) -> Result<Vec<usize>, OutOfMemory>
    requires { All (HasTables tables) cones.now }
    ensures ok { IfOk result (λ v. AreLacking cones.now tables v.items) }
{
    let mut counts: Vec<usize> = vec![in alloc; cones.len(); tables]?;
    for cone in cones {
        take_all(&mut counts, cone.tables());
    }
    Ok(counts)
}

// One less for each of these tables.
fn take_all(counts: &mut Vec<usize>, tables: &[u32])
    requires within { All (λ k. k < length counts.old.items) tables.now }
    requires once { AllPairs (λ a b. a ≢ b) tables.now }
    requires some { All (λ k. 0 < slice_index counts.old.items k) tables.now }
    ensures { AreTaken tables.now counts.old.items counts.new.items }
{
    for table in tables {
        counts[*table as usize] -= 1;
    }
}
