//! The rows that the slaves have before anything opens.
ghost use Rattle.std.specs.Prelude.{◌≡◌, ◌<◌, All, IfOk, length, map};
ghost use Rattle.ds_cover.specs.Cover.{values_at};

use ds_base::{OutOfMemory, RegId, Row3, Seq};
use std::alloc::Global;

/// The initial values of the registers of each cluster.
pub(crate) fn starts_of(
    alloc: Global,
    initial: &Row3,
    clusters: &[Seq<RegId>],
) -> Result<Vec<Row3>, OutOfMemory>
    requires within { All (λ registers. All (λ r. r < length initial.now) registers) clusters.now }
    ensures ok { IfOk result (λ rows. rows.items ≡ map (values_at initial.now) clusters.now) }
{
    let mut rows = Vec::with_capacity(alloc, clusters.len())?;
    for registers in clusters {
        rows.push(start_of(alloc, initial, registers.as_slice())?)?;
    }
    Ok(rows)
}

// The initial values of these registers.
fn start_of(alloc: Global, initial: &Row3, registers: &[RegId]) -> Result<Row3, OutOfMemory>
    requires within { All (λ r. r < length initial.now) registers.now }
    ensures ok { IfOk result (λ row. row ≡ values_at initial.now registers.now) }
{
    let mut row = Row3::with_len(alloc, registers.len())?;
    for (i, register) in registers.iter().enumerate() {
        row.set(i, initial.value(register.index()));
    }
    Ok(row)
}
