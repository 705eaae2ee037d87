//! Links by the rank of what they drive.
ghost use Rattle.std.specs.Prelude.{◌≡◌, ◌<◌, ◌^◌, length, All, IfOk};
ghost use Rattle.std.specs.List.{range_with_len};
ghost use Rattle.ds_design.specs.Levels.{IsSortedByLevel};

use ds_design::{Gate, by_level};
use std::alloc::{AllocError, Global};

// The places of the links, by the rank of what they drive.
pub(crate) fn order_of(alloc: Global, links: &[Gate], ranks: &[u64]) -> Result<Vec<u32>, AllocError>
    requires few { length links.now < 2 ^ 32 }
    requires inside { All (λ t. t.output < length ranks.now) links.now }
    ensures ok { IfOk result (λ v. IsSortedByLevel links.now ranks.now
        (range_with_len 0 (length links.now)) v.items) }
{
    let places = places(alloc, links.len() as u32)?;
    by_level(alloc, links, ranks, places.as_slice())
}

// So many places, from the first one on.
fn places(alloc: Global, count: u32) -> Result<Vec<u32>, AllocError>
    ensures ok { IfOk result (λ v. v.items ≡ range_with_len 0 count) }
{
    let mut all: Vec<u32> = Vec::new(alloc);
    for place in 0..count {
        all.push(place)?;
    }
    Ok(all)
}
