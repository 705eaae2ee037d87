//! The order of the tables by level, and inside a level by how many inputs they have, so that those
//! that are kept in one list stand together.
ghost use Rattle.std.specs.Prelude.{◌≡◌, ◌<◌, ◌^◌, length, All, IfOk};
ghost use Rattle.std.specs.List.{range_with_len};
ghost use Rattle.std.specs.List.Sorted.{IsPermutation};
ghost use Rattle.ds_design.specs.Levels.{IsSortedByLevel};

use ds_design::{Gate, by_level};
use std::alloc::{AllocError, Global};

// The places of the tables, by the level of what they drive.
pub(crate) fn table_order(
    alloc: Global,
    tables: &[Gate],
    levels: &[u64],
) -> Result<Vec<u32>, AllocError>
    requires few { length tables.now < 2 ^ 32 }
    requires inside { All (λ t. t.output < length levels.now) tables.now }
    ensures ok { IfOk result (λ v. IsSortedByLevel tables.now levels.now
        (range_with_len 0 (length tables.now)) v.items) }
{
    let places = by_width(alloc, tables)?;
    by_level(alloc, tables, levels, places.as_slice())
}

// The places of the tables, by how many inputs they have.
fn by_width(alloc: Global, tables: &[Gate]) -> Result<Vec<u32>, AllocError>
    requires few { length tables.now < 2 ^ 32 }
    ensures ok { IfOk result (λ v. IsPermutation (range_with_len 0 (length tables.now)) v.items) }
{
    let widths = widths_of(alloc, tables)?;
    let widths = widths.as_slice();
    let mut places = first_places(alloc, tables.len() as u32)?;
    places.sort_by_key(|place| width_at(widths, *place))?;
    Ok(places)
}

// How many inputs each table has, 7 where more: a byte each, which the sort reads again and again.
fn widths_of(alloc: Global, tables: &[Gate]) -> Result<Vec<u8>, AllocError> {
    tables
        .iter()
        .map(|table| table.table.inputs().len().min(7) as u8)
        .collect(alloc)
}

// That of one table.
fn width_at(widths: &[u8], place: u32) -> u8 {
    match widths.get(place as usize) {
        Some(width) => *width,
        None => 0,
    }
}

// So many places, from the first one on.
fn first_places(alloc: Global, count: u32) -> Result<Vec<u32>, AllocError>
    ensures ok { IfOk result (λ v. v.items ≡ range_with_len 0 count) }
{
    (0..count).collect(alloc)
}
