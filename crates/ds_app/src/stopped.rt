//! `run --stop`: the run of a plan that is stopped, and what its registers have stored then.
ghost use Rattle.std.specs.Prelude.{◌≡◌, ◌≤◌, ◌<◌, length};
ghost use Rattle.ds_design.specs.Circuit.{columns};
ghost use Rattle.ds_run.specs.Stopped.{IsStoppedText};
ghost use Rattle.ds_stage.specs.Ends.{Ends, Never, RoseIn, UnlessUnread, UnlessUnwritten};
ghost use Rattle.ds_stage.specs.Ends.{output_between};
ghost use Rattle.ds_stage.specs.Stage.{giving};
ghost use Rattle.ds_app.specs.RunStage.{stopped_run_stage};

use crate::run::stop_of;
use ds_cmd::RunJob;
use ds_latch::Plan;
use ds_outside::{Files, Gate, Sink};
use ds_run::{Halt, WorkerSettings, write_stopped};
use ds_stage::{Stop, read_rows};
use std::thread::Threads;

/// A plan, and after how many firings each worker stops.
#[derive(Clone, Copy)]
pub struct PlannedStop<'a, 'n> {
    pub plan: &'a Plan<'n>,
    pub stop: u64,
}

/// Reads the vectors whole, has these workers run the plan on them to its stop, and writes what
/// each register has stored then and how many firings there were, and the log where one is wanted.
#[tactic(auto)]
pub fn write_at_stop<R: AllocGlobal + Threads + Sync, G: Gate, F: Files, O: Sink>(
    workers: &WorkerSettings<'_, R, G>,
    job: &RunJob,
    planned: &PlannedStop<'_, '_>,
    files: &mut F,
    out: &mut O,
) -> Result<(), Stop>
    requires jobs { (0 < workers.now.jobs) × (workers.now.jobs ≤ 64) }
    ensures value { Ends (stopped_run_stage (F.held files.old) job.now.vec job.now.log
        workers.now.jobs planned.now.stop planned.now.plan.now.split.circuit planned.now.plan.now)
        (RoseIn (F.faults files.old) (F.faults files.new))
        (output_between O.written O.faults out.old out.new) result }

    ensures same_held { F.held files.new ≡ F.held files.old }
    ensures same_reads { UnlessUnread result (F.faults files.new ≡ F.faults files.old) }
    ensures same_writes { UnlessUnwritten result (O.faults out.new ≡ O.faults out.old) }
{
    let alloc = workers.threads.alloc();
    let plan = planned.plan;
    let vec = job.vec.as_str();
    let vectors = read_rows(alloc, files, vec, plan.latches().netlist())?;
    let halt = Halt {
        plan,
        vectors: &vectors,
        stop: planned.stop,
    };
    write_halted(workers, &halt, job.log, out)
}

// Has these workers run a plan to its stop, and writes what its registers have stored.
#[tactic(auto)]
fn write_halted<R: AllocGlobal + Threads + Sync, G: Gate, O: Sink>(
    workers: &WorkerSettings<'_, R, G>,
    halt: &Halt<'_, '_>,
    log: bool,
    out: &mut O,
) -> Result<(), Stop>
    requires width { halt.now.vectors.now.width
        ≡ length (columns halt.now.plan.now.split.circuit) }
    requires jobs { (0 < workers.now.jobs) × (workers.now.jobs ≤ 64) }
    ensures value { Ends (giving (IsStoppedText log halt.now.stop workers.now.jobs
        halt.now.plan.now halt.now.vectors.now.rows)) Never
        (output_between O.written O.faults out.old out.new) result }

    ensures same_writes { UnlessUnwritten result (O.faults out.new ≡ O.faults out.old) }
{
    match write_stopped(halt, workers, log, out) {
        Ok(()) => Ok(()),
        Err(fault) => Err(stop_of(fault)),
    }
}
