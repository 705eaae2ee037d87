//! `run`: the run of a plan by workers.
ghost use Rattle.std.specs.Prelude.{◌≡◌, ◌≤◌, ◌<◌, ◌⊎◌, length, Bool, IfOk};
ghost use Rattle.std.specs.Prelude.{true, false, Some, None};
ghost use Rattle.ds_design.specs.Circuit.{columns, initial_row};
ghost use Rattle.ds_cmd.specs.declared.job.Job.TheVariants.{Run};
ghost use Rattle.ds_clocked.specs.declared.run.SimFault.TheVariants as faults;
ghost use Rattle.ds_stream.specs.Next.{FitsHeld};
ghost use Rattle.ds_run.specs.WindowedText.{IsSomeLog, WritesEnd};
ghost use Rattle.ds_run.specs.Logged.{IsLogOf};
ghost use Rattle.ds_run.specs.Openings.{HasConeGroups};
ghost use Rattle.ds_stage.specs.declared.stop.Stop.TheVariants.{Memory, Unwritten};
ghost use Rattle.ds_stage.specs.Ends.{Ends, RoseIn, UnlessUnread, UnlessUnwritten, output_between};
ghost use Rattle.ds_stage.specs.StreamStage.{most_vectors as most_vectors_of};
ghost use Rattle.ds_app.specs.Job.{stages_of};
ghost use Rattle.ds_app.specs.RunStage.{planned_run_stage, streamed_run_stage};

use crate::stopped::{PlannedStop, write_at_stop};
use ds_base::{OutOfMemory, Row3};
use ds_clocked::SimFault;
use ds_cmd::RunJob;
use ds_latch::Plan;
use ds_outside::{Files, Gate, Sink, WriteFault};
use ds_run::{ConeGroups, Log, RunWindow, WorkerSettings, end_run, write_window};
use ds_stage::{Splitting, Stop, WINDOW, most_vectors, plan_netlist, read_netlist, read_window};
use ds_stream::VectorReader;
use std::alloc::Global;
use std::thread::Threads;

/// Reads a netlist, makes its plan, has workers run it on the vectors as these are read, and writes
/// the trace; or has them run it to a stop, and writes what each register has stored then. The log
/// stands behind where one is wanted.
#[tactic(auto)]
pub fn run<R: AllocGlobal + Threads + Sync, G: Gate, F: Files, O: Sink>(
    rt: &R,
    job: &RunJob,
    gate: &G,
    files: &mut F,
    out: &mut O,
) -> Result<(), Stop>
    requires jobs { (0 < job.now.jobs) × (job.now.jobs ≤ 64) }
    requires slack { job.now.slack ≤ 15 }
    ensures value { Ends (stages_of (F.held files.old) (Run job.now))
        (RoseIn (F.faults files.old) (F.faults files.new))
        (output_between O.written O.faults out.old out.new) result }

    ensures same_held { F.held files.new ≡ F.held files.old }
    ensures same_reads { UnlessUnread result (F.faults files.new ≡ F.faults files.old) }
    ensures same_writes { UnlessUnwritten result (O.faults out.new ≡ O.faults out.old) }
{
    let splitting = Splitting {
        clusters: job.clusters,
        groups: &job.groups,
        slack: job.slack,
    };
    let alloc = rt.alloc();
    let net = job.net.as_str();
    let netlist = read_netlist(alloc, files, net)?;
    let mut plan = plan_netlist(alloc, files, net, &netlist, &job.graph, splitting)?;
    let workers = WorkerSettings {
        threads: rt,
        jobs: job.jobs,
        gate,
    };
    run_planned(&workers, job, &mut plan, files, out)
}

// Runs a plan by these workers, to its end or to its stop.
fn run_planned<R: AllocGlobal + Threads + Sync, G: Gate, F: Files, O: Sink>(
    workers: &WorkerSettings<'_, R, G>,
    job: &RunJob,
    plan: &mut Plan<'_>,
    files: &mut F,
    out: &mut O,
) -> Result<(), Stop>
    requires start { plan.old.split.initial ≡ initial_row plan.old.split.circuit }
    requires jobs { (0 < workers.now.jobs) × (workers.now.jobs ≤ 64) }
    ensures value { Ends (planned_run_stage (F.held files.old) job.now.vec job.now.log
        workers.now.jobs job.now.stop plan.old.split.circuit plan.old)
        (RoseIn (F.faults files.old) (F.faults files.new))
        (output_between O.written O.faults out.old out.new) result }

    ensures same_held { F.held files.new ≡ F.held files.old }
    ensures same_reads { UnlessUnread result (F.faults files.new ≡ F.faults files.old) }
    ensures same_writes { UnlessUnwritten result (O.faults out.new ≡ O.faults out.old) }
{
    match job.stop {
        None => write_traced(workers, job, plan, files, out),
        Some(stop) => {
            let planned = PlannedStop { plan: &*plan, stop };
            write_at_stop(workers, job, &planned, files, out)
        }
    }
}

// Runs a plan by these workers window by window, each begun with the registers behind the one
// before, and writes its trace, and its log where one is wanted.
fn write_traced<R: AllocGlobal + Threads + Sync, G: Gate, F: Files, O: Sink>(
    workers: &WorkerSettings<'_, R, G>,
    job: &RunJob,
    plan: &mut Plan<'_>,
    files: &mut F,
    out: &mut O,
) -> Result<(), Stop>
    requires start { plan.old.split.initial ≡ initial_row plan.old.split.circuit }
    requires jobs { (0 < workers.now.jobs) × (workers.now.jobs ≤ 64) }
    ensures value { Ends (streamed_run_stage (F.held files.old) job.now.vec job.now.log
        plan.old.split.circuit plan.old) (RoseIn (F.faults files.old) (F.faults files.new))
        (output_between O.written O.faults out.old out.new) result }

    ensures same_held { F.held files.new ≡ F.held files.old }
    ensures same_reads { UnlessUnread result (F.faults files.new ≡ F.faults files.old) }
    ensures same_writes { UnlessUnwritten result (O.faults out.new ≡ O.faults out.old) }
{
    let alloc = workers.threads.alloc();
    let vec = job.vec.as_str();
    // Read for the facts that its numbers are in range, and that it is accepted.
    let _design = plan.latches().netlist().design();
    let _graph = plan.graph();
    let (mut log, cones) = begun_for(alloc, plan, job.log)?;
    let mut reader = reader_for(plan, job.log);
    let mut first = 0;
    let mut more = true;
    'windows: while more {
        let (behind, vectors) = read_window(alloc, files, vec, reader)?;
        let turns = vectors.count();
        let window = RunWindow {
            plan: &*plan,
            cones: &cones,
            vectors: &vectors,
            first,
        };
        match write_window(&window, workers, &mut log, out) {
            Ok(row) => plan.begin(&row),
            Err(fault) => return Err(stop_of(fault)),
        }
        reader = behind;
        first = reader.given();
        more = turns == WINDOW;
    }
    match end_traced(plan, log, out) {
        Ok(()) => Ok(()),
        Err(_) => Err(Stop::Unwritten),
    }
}

// What ends the job where a window is not written whole.
pub(crate) fn stop_of(fault: SimFault) -> Stop
    ensures { ((fault ≡ faults.Write) × (result ≡ Unwritten))
        ⊎ ((fault ≡ faults.Memory) × (result ≡ Memory)) }
{
    match fault {
        SimFault::Write => Stop::Unwritten,
        SimFault::Memory => Stop::Memory,
    }
}

// Writes the end of a run, and gives its log up.
#[tactic(auto)]
fn end_traced<O: Sink>(plan: &Plan<'_>, log: Option<Log>, out: &mut O) -> Result<(), WriteFault>
    requires log { IsSomeLog plan.now.graph log }
    ensures { WritesEnd result plan.now.graph log plan.now.split.initial
        (O.written out.old) (O.written out.new) (O.faults out.old) (O.faults out.new) }
{
    let mut log = log;
    end_run(plan, plan.latches().initial(), &mut log, out)
}

// The reader before the first vector of a plan's netlist.
#[tactic(auto)]
fn reader_for(plan: &Plan<'_>, log: bool) -> VectorReader
    ensures width { result.width ≡ length (columns plan.now.split.circuit) }
    ensures most { result.most ≡ most_vectors_of log }
    ensures given { result.given ≡ 0 }
    ensures fits { (held : _) → FitsHeld held result }
{
    let width = plan.latches().netlist().columns().len();
    VectorReader::new(width, most_vectors(log))
}

// What goes from window to window of a plan: the log before the first firing, where one is wanted,
// and the groups of the cones.
fn begun_for<'n>(
    alloc: Global,
    plan: &Plan<'n>,
    wanted: bool,
) -> Result<(Option<Log>, ConeGroups<'n>), OutOfMemory>
    ensures log { IfOk result (λ begun. IsLogOf wanted plan.now.graph 0 begun.0) }
    ensures cones { IfOk result (λ begun. HasConeGroups plan.now.split begun.1.groups) }
{
    let cones = ConeGroups::of(alloc, plan.latches())?;
    let log = if wanted {
        Some(Log::new(alloc, plan)?)
    } else {
        None
    };
    Ok((log, cones))
}
