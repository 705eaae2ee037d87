//! `replay`: the firings of a log fired again.
ghost use Rattle.std.specs.Prelude.{◌≡◌, ◌≤◌, true};
ghost use Rattle.ds_stage.specs.Ends.{Ends, RoseIn, UnlessUnread, UnlessUnwritten, output_between};
ghost use Rattle.ds_stage.specs.Stage.{then_stage};
ghost use Rattle.ds_stage.specs.Stages.{netlist_stage};
ghost use Rattle.ds_app.specs.JobStages.{replay_stage};

use ds_cmd::ReplayJob;
use ds_outside::{Files, Sink};
use ds_replay::AfterLog;
use ds_stage::{Splitting, Stop, plan_netlist, read_log, read_netlist, read_rows, write_state};
use std::alloc::Global;

/// Reads a netlist, makes its plan, fires the events of the log in their order on the vectors, and
/// writes what each register has stored then, and where it is wanted what open latches show.
#[tactic(auto)]
pub fn replay<F: Files, O: Sink>(
    alloc: Global,
    job: &ReplayJob,
    files: &mut F,
    out: &mut O,
) -> Result<(), Stop>
    requires slack { job.now.slack ≤ 15 }
    requires shown { job.now.transparent ≡ true → job.now.slack ≡ 0 }
    ensures value { Ends (then_stage (netlist_stage (F.held files.old) job.now.net)
        (replay_stage (F.held files.old) job.now))
        (RoseIn (F.faults files.old) (F.faults files.new))
        (output_between O.written O.faults out.old out.new) result }

    ensures same_held { F.held files.new ≡ F.held files.old }
    ensures same_reads { UnlessUnread result (F.faults files.new ≡ F.faults files.old) }
    ensures same_writes { UnlessUnwritten result (O.faults out.new ≡ O.faults out.old) }
{
    let log = job.log.as_str();
    let vec = job.vec.as_str();
    let net = job.net.as_str();
    let netlist = read_netlist(alloc, files, net)?;
    let splitting = Splitting {
        clusters: job.clusters,
        groups: &job.groups,
        slack: job.slack,
    };
    let plan = plan_netlist(alloc, files, net, &netlist, &job.graph, splitting)?;
    let vectors = read_rows(alloc, files, vec, &netlist)?;
    let (state, fired) = read_log(alloc, files, log, &plan, &vectors)?;
    let after = AfterLog {
        state: &state,
        fired,
        transparent: job.transparent,
    };
    write_state(alloc, &plan, &vectors, &after, out)
}
