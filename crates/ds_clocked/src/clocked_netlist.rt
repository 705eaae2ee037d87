//! A netlist that is clocked window by window, and what is kept of it from window to window.
ghost use Rattle.std.specs.Prelude.{◌≡◌};

use ds_base::OutOfMemory;
use ds_design::{Gate, Netlist};
use ds_slices::Slices;
use std::alloc::Global;
use std::marker::Model;

// The most inputs of a table that is worked out in words. A larger one is worked out turn by turn,
// which takes longer among words than without them.
const MOST_INPUTS: usize = 6;

/// A netlist that is clocked window by window. Feedback is looked for once, in the first window of
/// 1,024 turns or more without unknown values. If no register feeds back, the room for words is
/// kept. A caller sees the circuit of the netlist.
#[derive(Drop)]
pub struct ClockedNetlist<'n> {
    pub(crate) netlist: &'n Netlist,
    pub(crate) asked: bool,
    pub(crate) slices: Option<Slices>,
}

impl<'n> Model for ClockedNetlist<'n> {
    ghost use Rattle.std.specs.Prelude.{IfSome};
    ghost use Rattle.ds_design.specs.Circuit.{Circuit};
    ghost use Rattle.ds_slices.specs.Ready.{AreReady};

    ghost Value = { Circuit };

    ghost view = { λ r. r.netlist.now };

    ghost invariant = { λ r. IfSome r.slices (AreReady r.netlist.now) };
}

impl<'n> ClockedNetlist<'n> {
    /// Begins with nothing kept.
    pub fn new(netlist: &'n Netlist) -> ClockedNetlist<'n>
        ensures { result ≡ netlist.now }
    {
        ClockedNetlist {
            netlist,
            asked: false,
            slices: None,
        }
    }

    // Looks for feedback if nobody has, and makes the room for words if there is none and most
    // tables are small.
    pub(crate) fn ask(&mut self, alloc: Global) -> Result<(), OutOfMemory>
        ensures { self.new ≡ self.old }
    {
        if !self.asked {
            if are_small(self.netlist.design().tables()) {
                self.slices = Slices::of(alloc, self.netlist)?;
            }
            self.asked = true;
        }
        Ok(())
    }
}

// At most one table in sixteen has more inputs than are worked out in words.
fn are_small(tables: &[Gate]) -> bool {
    let large = tables
        .iter()
        .filter(|gate| gate.table.inputs().len() > MOST_INPUTS)
        .count();
    large <= tables.len() / 16
}
