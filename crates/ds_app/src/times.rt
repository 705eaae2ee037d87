//! `times`: when each event fires, turn by turn, if each fires as early as its orders and delays
//! allow.
ghost use Rattle.std.specs.Prelude.{◌≡◌, ◌≤◌, length};
ghost use Rattle.ds_stage.specs.Ends.{Ends, Never, RoseIn, UnlessUnread, UnlessUnwritten};
ghost use Rattle.ds_stage.specs.Ends.{output_between};
ghost use Rattle.ds_stage.specs.Stage.{giving, then_stage};
ghost use Rattle.ds_stage.specs.Stages.{netlist_stage};
ghost use Rattle.ds_stage.specs.TimesStage.{IsTimesText, scheduled_stage};
ghost use Rattle.ds_app.specs.JobStages.{times_stage};

use crate::accept::ranks_of;
use crate::times_text::write_turns;
use ds_cmd::TimesJob;
use ds_latch::Plan;
use ds_outside::{Files, Sink};
use ds_period::Delays;
use ds_stage::{Splitting, Stop, plan_netlist, read_netlist, read_timing};
use ds_times::{Schedule, events_by_rank};
use std::alloc::Global;

/// Reads a netlist, makes its plan, reads the delays of the graph's arcs, and writes when each
/// event fires in each of the turns that are wanted.
pub fn times<F: Files, O: Sink>(
    alloc: Global,
    job: &TimesJob,
    files: &mut F,
    out: &mut O,
) -> Result<(), Stop>
    requires turns { job.now.turns ≤ 65536 }
    requires slack { job.now.slack ≤ 15 }
    ensures value { Ends (then_stage (netlist_stage (F.held files.old) job.now.net)
        (times_stage (F.held files.old) job.now))
        (RoseIn (F.faults files.old) (F.faults files.new))
        (output_between O.written O.faults out.old out.new) result }

    ensures same_held { F.held files.new ≡ F.held files.old }
    ensures same_reads { UnlessUnread result (F.faults files.new ≡ F.faults files.old) }
    ensures same_writes { UnlessUnwritten result (O.faults out.new ≡ O.faults out.old) }
{
    let net = job.net.as_str();
    let netlist = read_netlist(alloc, files, net)?;
    let splitting = Splitting {
        clusters: job.clusters,
        groups: &job.groups,
        slack: job.slack,
    };
    let plan = plan_netlist(alloc, files, net, &netlist, &job.graph, splitting)?;
    write_scheduled(alloc, &plan, job, files, out)
}

// Reads the delays of the arcs of a plan's graph, and writes its times.
fn write_scheduled<F: Files, O: Sink>(
    alloc: Global,
    plan: &Plan<'_>,
    job: &TimesJob,
    files: &mut F,
    out: &mut O,
) -> Result<(), Stop>
    requires turns { job.now.turns ≤ 65536 }
    ensures value { Ends (scheduled_stage (F.held files.old) job.now.delays job.now.turns
        plan.now.graph) (RoseIn (F.faults files.old) (F.faults files.new))
        (output_between O.written O.faults out.old out.new) result }

    ensures same_held { F.held files.new ≡ F.held files.old }
    ensures same_reads { UnlessUnread result (F.faults files.new ≡ F.faults files.old) }
    ensures same_writes { UnlessUnwritten result (O.faults out.new ≡ O.faults out.old) }
{
    let name = job.delays.as_str();
    let delays = read_timing(alloc, files, name, plan.graph())?;
    write_times(alloc, plan, &delays, job.turns, out)
}

// Writes the times of so many turns of a plan's graph, once all memory is there.
fn write_times<O: Sink>(
    alloc: Global,
    plan: &Plan<'_>,
    delays: &Delays,
    turns: u32,
    out: &mut O,
) -> Result<(), Stop>
    requires one_each { length delays.now ≡ length plan.now.graph.arcs }
    requires turns { turns ≤ 65536 }
    ensures value { Ends (giving (IsTimesText plan.now.graph delays.now turns)) Never
        (output_between O.written O.faults out.old out.new) result }

    ensures same_writes { UnlessUnwritten result (O.faults out.new ≡ O.faults out.old) }
{
    let graph = plan.graph();
    let ranks = ranks_of(alloc, plan)?;
    let order = events_by_rank(alloc, graph.events().len(), &ranks)?;
    let mut schedule = Schedule::of(alloc, graph, delays, &ranks)?;
    match write_turns(plan, order.as_slice(), turns, &mut schedule, out) {
        Ok(()) => Ok(()),
        Err(_) => Err(Stop::Unwritten),
    }
}
