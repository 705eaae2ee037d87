//! `rate`: the exact period of a graph that stands alone, without a netlist.
ghost use Rattle.std.specs.Prelude.{◌≡◌};
ghost use Rattle.ds_stage.specs.Ends.{Ends, RoseIn, UnlessUnread, UnlessUnwritten, output_between};
ghost use Rattle.ds_app.specs.JobStages.{rate_stage};

use crate::period::measure;
use ds_cmd::RateJob;
use ds_outside::{Files, Sink};
use ds_stage::{Stop, read_bare_graph};
use std::alloc::Global;

/// Reads a graph and the delays of its arcs, and writes its period.
pub fn rate<F: Files, O: Sink>(
    alloc: Global,
    job: &RateJob,
    files: &mut F,
    out: &mut O,
) -> Result<(), Stop>
    ensures value { Ends (rate_stage (F.held files.old) job.now)
        (RoseIn (F.faults files.old) (F.faults files.new))
        (output_between O.written O.faults out.old out.new) result }

    ensures same_held { F.held files.new ≡ F.held files.old }
    ensures same_reads { UnlessUnread result (F.faults files.new ≡ F.faults files.old) }
    ensures same_writes { UnlessUnwritten result (O.faults out.new ≡ O.faults out.old) }
{
    let delays = job.delays.as_str();
    let name = job.graph.as_str();
    let graph = read_bare_graph(alloc, files, name)?;
    measure(alloc, &graph, delays, files, out)
}
