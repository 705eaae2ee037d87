//! A window of a run: a plan begun with the registers before it, run on its vectors and written.
ghost use Rattle.std.specs.Prelude.{◌≡◌, ◌≢◌, ◌+◌, ◌<◌, ◌≤◌, ◌^◌, length, Err, IfOk};
ghost use Rattle.std.specs.Prelude.{OnErr, OnOk};
ghost use Rattle.ds_design.specs.Circuit.{columns};
ghost use Rattle.ds_outside.specs.Fault.{Rose};
ghost use Rattle.ds_clocked.specs.Appends.{AppendsLines, AppendsLinesPart};
ghost use Rattle.ds_run.specs.Appends.{EndsLines};
ghost use Rattle.ds_run.specs.TraceRows.{HasLine};
ghost use Rattle.ds_run.specs.Logged.{LogGrows};
ghost use Rattle.ds_run.specs.Finished.{IsFinished};
ghost use Rattle.ds_run.specs.Openings.{HasConeGroups};

use crate::WorkerSettings;
use crate::cone_groups::ConeGroups;
use crate::log::Log;
use crate::run_plan::run_with;
use crate::stored_turns::StoredTurns;
use crate::trace::write_turns;
use crate::trace_rows::TraceRows;
use ds_base::{OutOfMemory, Row3};
use ds_clocked::SimFault;
use ds_design::Vectors;
use ds_fabric::Record;
use ds_latch::Plan;
use ds_outside::{Gate, Sink};
use std::thread::Threads;

/// A plan begun with the registers before the window, the groups of its cones, the vectors of the
/// window, and the number of its first turn in the whole run.
#[derive(Clone, Copy)]
pub struct RunWindow<'a, 'n> {
    pub plan: &'a Plan<'n>,
    pub cones: &'a ConeGroups<'n>,
    pub vectors: &'a Vectors,
    pub first: u64,
}

/// Runs a window by these workers and writes its lines, without the line `end`. Gives the registers
/// after its last turn, one value per register. Where a log is kept, it takes the firings of the
/// window. Without vectors nobody runs. After `Memory` nothing is written and the log is as it was,
/// after `Write` a first part of the lines is written and the log has the firings.
pub fn write_window<R: AllocGlobal + Threads + Sync, G: Gate, O: Sink>(
    window: &RunWindow<'_, '_>,
    workers: &WorkerSettings<'_, R, G>,
    log: &mut Option<Log>,
    out: &mut O,
) -> Result<Row3, SimFault>
    requires width { window.now.vectors.now.width
        ≡ length (columns window.now.plan.now.split.circuit) }
    requires cones { HasConeGroups window.now.plan.now.split window.now.cones.now.groups }
    requires few { window.now.first + length window.now.vectors.now.rows < 2 ^ 64 }
    requires jobs { (0 < workers.now.jobs) × (workers.now.jobs ≤ 64) }

    ensures ok { IfOk result (AppendsLines window.now.plan.now.split.circuit window.now.first
        window.now.plan.now.split.initial window.now.vectors.now.rows
        (O.written out.old) (O.written out.new)) }
    ensures ok_row { IfOk result (λ row. length row
        ≡ length window.now.plan.now.split.circuit.registers) }
    ensures ok_log { OnOk result (LogGrows window.now.plan.now.graph
        (length window.now.vectors.now.rows) log.old log.new) }

    // After a fault.
    ensures part { result ≡ Err SimFault.Write
        → AppendsLinesPart window.now.plan.now.split.circuit window.now.first
        window.now.plan.now.split.initial window.now.vectors.now.rows
        (O.written out.old) (O.written out.new) }
    ensures same { result ≡ Err SimFault.Memory → O.written out.new ≡ O.written out.old }
    ensures same_log { result ≡ Err SimFault.Memory → log.new ≡ log.old }
    ensures back_log { result ≡ Err SimFault.Write → LogGrows window.now.plan.now.graph
        (length window.now.vectors.now.rows) log.old log.new }

    // When a write failed.
    ensures same_faults { result ≢ Err SimFault.Write → O.faults out.new ≡ O.faults out.old }
    ensures never_falls { O.faults out.old ≤ O.faults out.new }
    ensures cause { result ≡ Err SimFault.Write → Rose (O.faults out.old) (O.faults out.new) }
{
    let Ok(mut line) = TraceRows::of(workers.threads.alloc(), window.plan.latches()) else {
        return Err(SimFault::Memory);
    };
    if window.vectors.count() == 0 {
        return Ok(line.registers);
    }
    let Ok(recorded) = fire_window(window, workers, log) else {
        return Err(SimFault::Memory);
    };
    write_lines(workers, window, &recorded, line, out)
}

// Runs a window to its end, and has the log take its firings.
fn fire_window<R: AllocGlobal + Threads + Sync, G: Gate>(
    window: &RunWindow<'_, '_>,
    workers: &WorkerSettings<'_, R, G>,
    log: &mut Option<Log>,
) -> Result<Record, OutOfMemory>
    requires width { window.now.vectors.now.width
        ≡ length (columns window.now.plan.now.split.circuit) }
    requires cones { HasConeGroups window.now.plan.now.split window.now.cones.now.groups }
    requires jobs { (0 < workers.now.jobs) × (workers.now.jobs ≤ 64) }
    ensures ok { IfOk result (IsFinished window.now.plan.now window.now.vectors.now.rows) }
    ensures ok_log { OnOk result (LogGrows window.now.plan.now.graph
        (length window.now.vectors.now.rows) log.old log.new) }
    ensures same { OnErr result (log.new ≡ log.old) }
{
    let recorded = run_with(window.plan, window.cones, window.vectors, workers)?;
    match log {
        Some(log) => log.take(workers.threads.alloc(), window, &recorded)?,
        None => {}
    }
    Ok(recorded)
}

// Writes the lines of a window that was run, and gives the registers after it.
fn write_lines<R: AllocGlobal + Threads + Sync, G, O: Sink>(
    workers: &WorkerSettings<'_, R, G>,
    window: &RunWindow<'_, '_>,
    recorded: &Record,
    line: TraceRows,
    out: &mut O,
) -> Result<Row3, SimFault>
    requires jobs { (0 < workers.now.jobs) × (workers.now.jobs ≤ 64) }
    requires finished_run { IsFinished window.now.plan.now window.now.vectors.now.rows
        recorded.now }
    requires few { window.now.first + length window.now.vectors.now.rows < 2 ^ 64 }
    requires line { HasLine window.now.plan.now.split line }
    requires registers { line.registers ≡ window.now.plan.now.split.initial }
    ensures { EndsLines window.now.plan.now.split window.now.first window.now.vectors.now.rows
        result (O.written out.old) (O.written out.new) (O.faults out.old) (O.faults out.new) }
{
    let mut line = line;
    let stored = StoredTurns {
        plan: window.plan,
        recorded,
        turns: window.vectors.count(),
        first: window.first,
    };
    match write_turns(workers, &stored, &mut line, out) {
        Ok(()) => Ok(line.registers),
        Err(_) => Err(SimFault::Write),
    }
}
