//! Where the registers stand among the clusters.
ghost use Rattle.std.specs.Prelude.{◌≡◌, ◌<◌, ℕ, All, IfOk, length, slice_index_or};
ghost use Rattle.ds_rows.specs.Homes.{AreHomes, ArePlaced, IsPlacedOrKept, no_home};

use ds_base::RegId;
use ds_latch::Latches;
use std::alloc::{AllocError, Global};

/// A cluster, and a place among its registers.
#[derive(Clone, Copy)]
pub struct Home {
    pub cluster: usize,
    pub place: usize,
}

/// For each register, where it stands.
pub fn homes_of(alloc: Global, latches: &Latches<'_>) -> Result<Vec<Home>, AllocError>
    ensures { IfOk result (λ homes. AreHomes latches.now homes.items) }
{
    let initial = latches.initial();
    let clusters = latches.clusters();
    let mut homes = no_homes(alloc, initial.len())?;
    for i in 0..clusters.len() {
        place(clusters[i].as_slice(), i, &mut homes);
    }
    Ok(homes)
}

// For so many registers, before any is placed.
fn no_homes(alloc: Global, registers: usize) -> Result<Vec<Home>, AllocError>
    ensures { IfOk result (λ v. length v.items ≡ registers) }
{
    vec![in alloc; Home {
        cluster: 0,
        place: 0
    }; registers]
}

// These registers are those of a cluster.
fn place(registers: &[RegId], cluster: usize, homes: &mut Vec<Home>)
    requires { All (λ r. r < length homes.old.items) registers.now }
    ensures same { length homes.new.items ≡ length homes.old.items }
    ensures placed { ArePlaced registers.now cluster homes.new.items }
    ensures kept { (r : ℕ) → IsPlacedOrKept registers.now cluster r
        (slice_index_or homes.old.items r no_home) (slice_index_or homes.new.items r no_home) }
{
    for (place, register) in registers.iter().enumerate() {
        homes[register.index()] = Home { cluster, place };
    }
}
