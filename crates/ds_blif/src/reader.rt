//! Reading a netlist text: forward for its first fault, then backward for its models.
//!
//! These stay two passes. Whether a line has a fault hangs on what stands before it; a table's rows
//! and a model's commands stand behind their first lines, so a pass backward has them whole when it
//! meets these, and keeps no table or model that is open. One pass would keep both states, take
//! memory for models that a later fault throws away, and save a look at each line's first word.
ghost use Rattle.std.specs.Prelude.{◌≡◌};
ghost use Rattle.ds_base.specs.Refusal.{IsMeant};
ghost use Rattle.ds_blif.specs.Text.{models_of_text};

use crate::build::build;
use crate::check::check;
use crate::fault::BlifRefusal;
use ds_design::Blif;
use ds_lines::Lines;
use std::alloc::Global;

/// The models that the lines stand for, the main one first, or their first fault. A text without
/// a model is a fault of line 1.
pub fn read<'l>(alloc: Global, lines: &'l Lines<'_>) -> Result<Blif<'l>, BlifRefusal>
    ensures { IsMeant result (models_of_text lines.entry.now) }
{
    check(alloc, lines)?;
    let models = build(alloc, lines)?;
    Ok(Blif::of(models))
}
