//! `graph`: the controller graph of a netlist, or its expansion.
ghost use Rattle.std.specs.Prelude.{◌≡◌, ◌≤◌};
ghost use Rattle.ds_stage.specs.Ends.{Ends, Never, RoseIn, UnlessUnread, UnlessUnwritten};
ghost use Rattle.ds_stage.specs.Ends.{output_between};
ghost use Rattle.ds_stage.specs.GraphStage.{controller_stage, drawn_stage};
ghost use Rattle.ds_stage.specs.Stage.{then_stage};
ghost use Rattle.ds_stage.specs.Stages.{netlist_stage};
ghost use Rattle.ds_app.specs.JobStages.{graph_stage};

use ds_astg::write;
use ds_cmd::GraphJob;
use ds_latch::Latches;
use ds_marked::Marked;
use ds_outside::{Files, Sink};
use ds_stage::{Splitting, Stop, read_netlist, split_netlist, wanted_graph};
use std::alloc::Global;

/// Reads a netlist, and writes its controller graph, or the expansion of it.
#[tactic(auto)]
pub fn graph<F: Files, O: Sink>(
    alloc: Global,
    job: &GraphJob,
    files: &mut F,
    out: &mut O,
) -> Result<(), Stop>
    requires { job.now.slack ≤ 15 }
    ensures value { Ends (then_stage (netlist_stage (F.held files.old) job.now.net)
        (graph_stage (F.held files.old) job.now))
        (RoseIn (F.faults files.old) (F.faults files.new))
        (output_between O.written O.faults out.old out.new) result }

    ensures same_held { F.held files.new ≡ F.held files.old }
    ensures same_reads { UnlessUnread result (F.faults files.new ≡ F.faults files.old) }
    ensures same_writes { UnlessUnwritten result (O.faults out.new ≡ O.faults out.old) }
{
    let net = job.net.as_str();
    let netlist = read_netlist(alloc, files, net)?;
    let splitting = Splitting {
        clusters: job.clusters,
        groups: &job.groups,
        slack: job.slack,
    };
    let latches = split_netlist(alloc, files, net, &netlist, splitting)?;
    draw(alloc, net, &latches.with_slack(job.slack), job.shake, out)
}

// Writes the graph that is wanted of a split netlist. `file` is the netlist's.
fn draw<O: Sink>(
    alloc: Global,
    file: &str,
    latches: &Latches<'_>,
    shake: bool,
    out: &mut O,
) -> Result<(), Stop>
    ensures value { Ends (controller_stage file.now shake latches.now) Never
        (output_between O.written O.faults out.old out.new) result }

    ensures same_writes { UnlessUnwritten result (O.faults out.new ≡ O.faults out.old) }
{
    let graph = wanted_graph(alloc, file, latches, shake)?;
    write_graph(latches, &graph, out)
}

// Writes a graph of a split netlist, under the name of its main model.
fn write_graph<O: Sink>(latches: &Latches<'_>, graph: &Marked, out: &mut O) -> Result<(), Stop>
    ensures value { Ends (drawn_stage latches.now graph.now) Never
        (output_between O.written O.faults out.old out.new) result }

    ensures same_writes { UnlessUnwritten result (O.faults out.new ≡ O.faults out.old) }
{
    // Lent for the fact that nodes are few.
    let _edges = latches.edges();
    let own = latches.bits().len() as u32;
    let name = latches.netlist().design().name();
    match write(name, own, graph, out) {
        Ok(()) => Ok(()),
        Err(_) => Err(Stop::Unwritten),
    }
}
