//! The models of lines without a fault.
ghost use Rattle.std.specs.Prelude.{◌≡◌, IfOk};
ghost use Rattle.ds_blif.specs.Parts.{models_of};

use crate::building::Building;
use ds_base::{OutOfMemory, Seq};
use ds_design::BlifModel;
use ds_lines::Lines;
use std::alloc::Global;

/// The models of the lines. Of lines with a fault they are some models.
pub fn build<'l>(alloc: Global, lines: &'l Lines<'_>) -> Result<Seq<BlifModel<'l>>, OutOfMemory>
    ensures { IfOk result (λ m. m ≡ models_of lines.entry.now) }
{
    let mut building: Building<'l> = Building::new(alloc);
    for i in (0..lines.count()).rev() {
        building.take_line(alloc, lines.number(i), lines.line(i))?;
    }
    Ok(building.into_models())
}
