//! `period`: the exact period of the controller graph, or of one of the user's that is accepted.
ghost use Rattle.std.specs.Prelude.{◌≡◌, ◌≤◌, length};
ghost use Rattle.ds_period.specs.Controller.{HasPeriod};
ghost use Rattle.ds_stage.specs.Ends.{Ends, Never, RoseIn, UnlessUnread, UnlessUnwritten};
ghost use Rattle.ds_stage.specs.Ends.{output_between};
ghost use Rattle.ds_stage.specs.PeriodStage.{IsPeriodText, timed_stage};
ghost use Rattle.ds_stage.specs.Stage.{giving, then_stage};
ghost use Rattle.ds_stage.specs.Stages.{netlist_stage};
ghost use Rattle.ds_app.specs.JobStages.{period_stage};

use crate::period_text::period_text;
use ds_cmd::PeriodJob;
use ds_marked::Marked;
use ds_outside::{Files, Sink, write_all};
use ds_period::Delays;
use ds_period::laws::plans_have_periods;
use ds_stage::{Splitting, Stop, plan_netlist, read_netlist, read_timing};
use std::alloc::Global;

/// Reads a netlist, makes its plan, reads the delays of the graph's arcs, and writes its period.
#[tactic(auto)]
pub fn period<F: Files, O: Sink>(
    alloc: Global,
    job: &PeriodJob,
    files: &mut F,
    out: &mut O,
) -> Result<(), Stop>
    requires { job.now.slack ≤ 15 }
    ensures value { Ends (then_stage (netlist_stage (F.held files.old) job.now.net)
        (period_stage (F.held files.old) job.now))
        (RoseIn (F.faults files.old) (F.faults files.new))
        (output_between O.written O.faults out.old out.new) result }

    ensures same_held { F.held files.new ≡ F.held files.old }
    ensures same_reads { UnlessUnread result (F.faults files.new ≡ F.faults files.old) }
    ensures same_writes { UnlessUnwritten result (O.faults out.new ≡ O.faults out.old) }
{
    let delays = job.delays.as_str();
    let net = job.net.as_str();
    let netlist = read_netlist(alloc, files, net)?;
    let splitting = Splitting {
        clusters: job.clusters,
        groups: &job.groups,
        slack: job.slack,
    };
    let plan = plan_netlist(alloc, files, net, &netlist, &job.graph, splitting)?;
    // Called for the law that it states.
    plans_have_periods();
    measure(alloc, plan.graph(), delays, files, out)
}

/// Reads the delays of the arcs of a graph, and writes its period.
pub(crate) fn measure<F: Files, O: Sink>(
    alloc: Global,
    graph: &Marked,
    delays: &str,
    files: &mut F,
    out: &mut O,
) -> Result<(), Stop>
    requires { HasPeriod graph.now }
    ensures value { Ends (timed_stage (F.held files.old) delays.now graph.now)
        (RoseIn (F.faults files.old) (F.faults files.new))
        (output_between O.written O.faults out.old out.new) result }

    ensures same_held { F.held files.new ≡ F.held files.old }
    ensures same_reads { UnlessUnread result (F.faults files.new ≡ F.faults files.old) }
    ensures same_writes { UnlessUnwritten result (O.faults out.new ≡ O.faults out.old) }
{
    let delays = read_timing(alloc, files, delays, graph)?;
    write_period(alloc, graph, &delays, out)
}

// Writes the period of a graph, once all of its text is there.
fn write_period<O: Sink>(
    alloc: Global,
    graph: &Marked,
    delays: &Delays,
    out: &mut O,
) -> Result<(), Stop>
    requires one_each { length delays.now ≡ length graph.now.arcs }
    requires period { HasPeriod graph.now }
    ensures value { Ends (giving (IsPeriodText graph.now delays.now)) Never
        (output_between O.written O.faults out.old out.new) result }

    ensures same_writes { UnlessUnwritten result (O.faults out.new ≡ O.faults out.old) }
{
    let period = ds_period::period(alloc, graph, delays)?;
    let text = period_text(alloc, graph, &period)?;
    match write_all(out, &text) {
        Ok(()) => Ok(()),
        Err(_) => Err(Stop::Unwritten),
    }
}
