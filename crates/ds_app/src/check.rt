//! `check`: the report on a netlist.
ghost use Rattle.std.specs.Prelude.{◌≡◌};
ghost use Rattle.ds_stage.specs.Ends.{Ends, RoseIn, UnlessUnread, UnlessUnwritten, output_between};
ghost use Rattle.ds_stage.specs.Stage.{then_stage};
ghost use Rattle.ds_stage.specs.Stages.{netlist_stage, report_stage};

use ds_cmd::FileName;
use ds_outside::{Files, Sink};
use ds_stage::{Stop, read_netlist, write_report};
use std::alloc::Global;

/// Reads the netlist of the file `net`, and writes the report on it.
#[tactic(none)]
pub fn check<F: Files, O: Sink>(
    alloc: Global,
    net: &FileName,
    files: &mut F,
    out: &mut O,
) -> Result<(), Stop>
    ensures value { Ends (then_stage (netlist_stage (F.held files.old) net.now) report_stage)
        (RoseIn (F.faults files.old) (F.faults files.new))
        (output_between O.written O.faults out.old out.new) result }

    ensures same_held { F.held files.new ≡ F.held files.old }
    ensures same_reads { UnlessUnread result (F.faults files.new ≡ F.faults files.old) }
    ensures same_writes { UnlessUnwritten result (O.faults out.new ≡ O.faults out.old) }
{
    let netlist = read_netlist(alloc, files, net.as_str())?;
    write_report(&netlist, out)
}
