//! What a stopped run left, with all memory that its text takes.
ghost use Rattle.std.specs.Prelude.{◌≡◌, ◌<◌, ◌≤◌, IfOk, length};
ghost use Rattle.ds_design.specs.Circuit.{columns};
ghost use Rattle.ds_run.specs.Left.{IsLogLeft, IsLeftOf};

use crate::halt::Halt;
use crate::log::Log;
use crate::{WorkerSettings, run_to};
use ds_base::OutOfMemory;
use ds_fabric::Record;
use ds_latch::Plan;
use ds_outside::Gate;
use ds_rows::{Home, homes_of};
use std::alloc::Global;
use std::thread::Threads;

/// The record of a stopped run, where the registers stand, and its log where one is wanted.
#[derive(Drop)]
pub struct Left {
    pub fired: Record,
    pub homes: Vec<Home>,
    pub log: Option<Log>,
}

impl Left {
    /// Runs until it is to stop.
    pub fn of<R: AllocGlobal + Threads + Sync, G: Gate>(
        halt: &Halt<'_, '_>,
        workers: &WorkerSettings<'_, R, G>,
        log: bool,
    ) -> Result<Self, OutOfMemory>
        requires width { halt.now.vectors.now.width
            ≡ length (columns halt.now.plan.now.split.circuit) }
        requires jobs { (0 < workers.now.jobs) × (workers.now.jobs ≤ 64) }
        ensures { IfOk result (IsLeftOf log halt.now.stop workers.now.jobs halt.now.plan.now
            halt.now.vectors.now.rows) }
    {
        let alloc = workers.threads.alloc();
        let fired = run_to(halt.plan, halt.vectors, workers, halt.stop)?;
        let homes = homes_of(alloc, halt.plan.latches())?;
        let log = wanted_log(alloc, halt.plan, &fired, log)?;
        Ok(Left { fired, homes, log })
    }
}

// The log of a record, where it is wanted.
fn wanted_log(
    alloc: Global,
    plan: &Plan<'_>,
    fired: &Record,
    wanted: bool,
) -> Result<Option<Log>, OutOfMemory>
    ensures { IfOk result (IsLogLeft wanted plan.now.graph fired.now) }
{
    if wanted {
        Ok(Some(Log::of_record(alloc, plan, fired)?))
    } else {
        Ok(None)
    }
}
