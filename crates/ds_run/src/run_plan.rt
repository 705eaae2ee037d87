//! A plan that workers run, to its end or until it is stopped.
ghost use Rattle.std.specs.Prelude.{◌≡◌, ◌<◌, ◌≤◌, IfOk, length};
ghost use Rattle.ds_design.specs.Circuit.{columns};
ghost use Rattle.ds_run.specs.Halted.{IsHalted, IsWorked};
ghost use Rattle.ds_run.specs.Finished.{IsFinished};
ghost use Rattle.ds_run.specs.Openings.{HasConeGroups};

use crate::cone_groups::ConeGroups;
use crate::openings::Openings;
use crate::table_run::table_run_of;
use ds_base::OutOfMemory;
use ds_design::Vectors;
use ds_fabric::Record;
use ds_latch::Plan;
use ds_outside::Gate;
use ds_runner::WorkerSettings;
use std::thread::Threads;

/// Fires every event of a plan once a vector. Want of memory is the only fault.
pub fn run<R: AllocGlobal + Threads + Sync, G: Gate>(
    plan: &Plan<'_>,
    vectors: &Vectors,
    workers: &WorkerSettings<'_, R, G>,
) -> Result<Record, OutOfMemory>
    requires width { vectors.now.width ≡ length (columns plan.now.split.circuit) }
    requires jobs { (0 < workers.now.jobs) × (workers.now.jobs ≤ 64) }
    ensures ok { IfOk result (IsFinished plan.now vectors.now.rows) }
{
    let cones = ConeGroups::of(workers.threads.alloc(), plan.latches())?;
    run_with(plan, &cones, vectors, workers)
}

/// The same with the groups of the plan's cones.
pub(crate) fn run_with<R: AllocGlobal + Threads + Sync, G: Gate>(
    plan: &Plan<'_>,
    cones: &ConeGroups<'_>,
    vectors: &Vectors,
    workers: &WorkerSettings<'_, R, G>,
) -> Result<Record, OutOfMemory>
    requires width { vectors.now.width ≡ length (columns plan.now.split.circuit) }
    requires cones { HasConeGroups plan.now.split cones.now.groups }
    requires jobs { (0 < workers.now.jobs) × (workers.now.jobs ≤ 64) }
    ensures ok { IfOk result (IsFinished plan.now vectors.now.rows) }
{
    work(plan, cones, vectors, workers, None)
}

/// Fires events of a plan, each worker at most so many, and in all at least so many, or all that
/// there are.
/// Want of memory is the only fault.
pub fn run_to<R: AllocGlobal + Threads + Sync, G: Gate>(
    plan: &Plan<'_>,
    vectors: &Vectors,
    workers: &WorkerSettings<'_, R, G>,
    stop: u64,
) -> Result<Record, OutOfMemory>
    requires width { vectors.now.width ≡ length (columns plan.now.split.circuit) }
    requires jobs { (0 < workers.now.jobs) × (workers.now.jobs ≤ 64) }
    ensures ok { IfOk result (IsHalted stop workers.now.jobs plan.now vectors.now.rows) }
{
    let cones = ConeGroups::of(workers.threads.alloc(), plan.latches())?;
    work(plan, &cones, vectors, workers, Some(stop))
}

// Has workers fire events of a plan, each as many as its quota, where there is one.
fn work<R: AllocGlobal + Threads + Sync, G: Gate>(
    plan: &Plan<'_>,
    cones: &ConeGroups<'_>,
    vectors: &Vectors,
    workers: &WorkerSettings<'_, R, G>,
    quota: Option<u64>,
) -> Result<Record, OutOfMemory>
    requires width { vectors.now.width ≡ length (columns plan.now.split.circuit) }
    requires cones { HasConeGroups plan.now.split cones.now.groups }
    requires jobs { (0 < workers.now.jobs) × (workers.now.jobs ≤ 64) }
    ensures { IfOk result (IsWorked quota workers.now.jobs plan.now vectors.now.rows) }
{
    let alloc = workers.threads.alloc();
    // Read for the fact that it is accepted for the latches.
    let _accepted = plan.graph();
    let run = table_run_of(alloc, plan, vectors)?;
    let openings = Openings::of(alloc, plan, cones, vectors, &run)?;
    ds_runner::run(alloc, &run, &openings, workers, quota)
}
