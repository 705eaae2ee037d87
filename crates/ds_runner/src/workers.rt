//! The call of this crate: a run by as many workers as pay. Threads may fail to start and workers
//! may give up; the caller completes the run. If no second worker pays, it fires all, in the firing
//! order if there is one.
ghost use Rattle.std.specs.Prelude.{◌≡◌, ◌<◌, ◌≤◌, ◌+◌, ◌*◌, ℕ, IfOk, OnOk, All, length};
ghost use Rattle.std.specs.Prelude.{slice_index_or};
ghost use Rattle.ds_rule.specs.Sound.{IsSound};
ghost use Rattle.ds_rule.specs.Progress.{IsRunAccepted};
ghost use Rattle.ds_fabric.specs.Showing.{Belongs, IsFabricBegun};
ghost use Rattle.ds_runner.specs.FiringOrder.{IsFiringOrder};
ghost use Rattle.ds_runner.specs.Work.{HasFrom, HasPassOfEach, IsWithin, IsUnfired, all_tickets};
ghost use Rattle.ds_runner.specs.Work.{quota_of};
ghost use Rattle.ds_runner.specs.Stopped.{IsRunRecord};
ghost use Rattle.ds_runner.specs.declared.worker.Worker.{Worker};

use crate::budget::Budget;
use crate::complete::{Caller, complete};
use crate::drive::drive;
use crate::firing_order::firing_order;
use crate::gather::gather;
use crate::make_pool::make_pool;
use crate::parts::{paying_parts, work_of};
use crate::quota_left::quota_left;
use crate::scheduler::Scheduler;
use crate::worker::Worker;
use crate::workload::Workload;
use ds_base::{EventId, OutOfMemory};
use ds_fabric::{Compute, Fabric, Pass, Record};
use ds_outside::Gate;
use ds_rule::{RunValues, TableRun};
use std::alloc::Global;
use std::thread;
use std::thread::Threads;

// A run of so few nodes is a lesson or a test: it is shared whether that pays or not.
const FEW: usize = 16;

/// Who fires the events of a run: at most so many workers, from 1 to 64, in these threads. Each
/// calls the gate before a step.
#[derive(Drop)]
pub struct WorkerSettings<'a, R, G> {
    pub threads: &'a R,
    pub jobs: u32,
    pub gate: &'a G,
}

/// Fires every event of a run as often as it may, with as many workers as pay; or with a quota
/// until about that many events have fired. With a quota, or at most 16 nodes, as many workers as
/// jobs fire, but no more than nodes.
///
/// A worker calls the gate before it steps a node that is not done, with its number, the event that
/// the node fires next, and its turn, from 1 on. With one job or one node, or if no second worker
/// pays, the caller is worker 0 and fires all. Else the caller, which fires what is left in the
/// end, has the number `jobs`. No fault comes of a thread that cannot be started: its work is done
/// by another.
///
/// A quota is how often each worker fires at most. The caller fires only while fewer have fired in
/// all. A step that does not fire counts nothing.
pub fn run<R: Threads + Sync, V: RunValues + Sync, C: Compute + Sync, G: Gate>(
    alloc: Global,
    run: &TableRun<V>,
    openings: &C,
    workers: &WorkerSettings<'_, R, G>,
    quota: Option<u64>,
) -> Result<Record, OutOfMemory>
    requires sound { IsSound run.now }
    requires accepted { IsRunAccepted run.now }
    requires openings { C.run openings.now ≡ run.now }
    requires jobs { (0 < workers.now.jobs) × (workers.now.jobs ≤ 64) }
    ensures { IfOk result (IsRunRecord quota workers.now.jobs run.now) }
{
    let (fabric, mut pass) = Fabric::build(alloc, run, openings)?;
    let workload = Workload {
        fabric: &fabric,
        run,
        gate: workers.gate,
    };
    let budget = budget(&workload, workers.jobs, quota);
    let order = order_for(alloc, run, budget.workers, quota)?;
    let number = share_out(workers, alloc, &workload, &mut pass, budget)?;
    let quota_left = quota_left(run, &pass, quota);
    complete(
        &workload,
        &mut pass,
        order.as_slice(),
        Caller { number, quota_left },
    );
    Ok(fabric.finish(pass))
}

// In which order the caller fires a whole run that it fires alone. There is none for others.
fn order_for<V: RunValues>(
    alloc: Global,
    run: &TableRun<V>,
    workers: u32,
    quota: Option<u64>,
) -> Result<Vec<EventId>, OutOfMemory>
    requires { IsSound run.now }
    ensures { IfOk result (λ v. 0 < length v.items → IsFiringOrder run.now v.items) }
{
    if workers == 1 && quota.is_none() {
        firing_order(alloc, run)
    } else {
        Ok(Vec::new(alloc))
    }
}

// Shares the run among workers, if there are several. The number of the caller.
fn share_out<R: Threads + Sync, V: RunValues + Sync, C: Compute + Sync, G: Gate>(
    workers: &WorkerSettings<'_, R, G>,
    alloc: Global,
    workload: &Workload<'_, '_, V, C, G>,
    pass: &mut Pass,
    budget: Budget,
) -> Result<u32, OutOfMemory>
    requires begun { IsFabricBegun workload.now.run workload.now pass.old }
    requires workers { (0 < budget.workers) × (budget.workers ≤ 64) }
    requires nodes { 1 < budget.workers → 0 < workload.now.run.nodes }
    ensures ok { OnOk result (Belongs workload.now pass.new × HasFrom pass.new.view 0) }
    ensures ok_few { OnOk result (all_tickets pass.new.view
        ≤ budget.workers * budget.firings) }
{
    if budget.workers == 1 {
        return Ok(0);
    }
    share(workers.threads, alloc, workload, pass, budget)?;
    Ok(workers.jobs)
}

// Workers fire what they can. Then the pass has all nodes again.
fn share<R: Threads + Sync, V: RunValues + Sync, C: Compute + Sync, G: Gate>(
    rt: &R,
    alloc: Global,
    workload: &Workload<'_, '_, V, C, G>,
    pass: &mut Pass,
    budget: Budget,
) -> Result<(), OutOfMemory>
    requires fits { Belongs workload.now pass.old }
    requires has { HasFrom pass.old.view 0 }
    requires unfired { IsUnfired pass.old.view }
    requires workers { (0 < budget.workers) × (budget.workers ≤ 64)
        × (0 < workload.now.run.nodes) }
    requires room { (pass.old.many ≡ workload.now.run.nodes)
        × (workload.now.run.nodes ≤ pass.old.room) }
    ensures ok { OnOk result (Belongs workload.now pass.new × HasFrom pass.new.view 0) }
    ensures ok_few { OnOk result (all_tickets pass.new.view
        ≤ budget.workers * budget.firings) }
{
    let mut pool = make_pool(alloc, workload, pass, budget.workers)?;
    drive_all(
        rt,
        workload,
        &pool.scheduler,
        pool.workers.as_mut_slice(),
        budget,
    );
    gather(workload, pass, pool);
    Ok(())
}

// Each worker drives, in a thread of its own.
fn drive_all<R: Threads + Sync, V: RunValues + Sync, C: Compute + Sync, G: Gate>(
    rt: &R,
    workload: &Workload<'_, '_, V, C, G>,
    scheduler: &Scheduler,
    workers: &mut [Worker],
    budget: Budget,
)
    requires fits { HasPassOfEach workload.now scheduler.now.stile }
    requires some { 0 < length workers.old }
    requires workers { All (IsWithin workload.now scheduler.now.stile 0) workers.old }
    ensures { (i : ℕ) (d : Worker) → i < length workers.old
        → IsWithin workload.now scheduler.now.stile budget.firings
        (slice_index_or workers.new i d) }
{
    thread::for_each_mut(
        rt,
        workers,
        workers.len(),
        &|_, worker|
            requires fits { HasPassOfEach workload.now scheduler.now.stile }
            requires worker { IsWithin workload.now scheduler.now.stile 0 worker.old }
            ensures { IsWithin workload.entry.now scheduler.entry.now.stile budget.firings
                worker.new }
        { drive(workload, scheduler, worker, budget) },
    );
}

// Twice the nodes times the vectors are at least the firings of the whole run, and each worker may
// have as many takes. The looks are shared among the workers: all of them together take some twice
// as long as the most firings, which goes with the work of the nodes: two looks take as long as
// three tables. So a worker looks on until a run is done in which each is at work for a third of
// the time, longer if cones overlap. If workers wait for processors, what they lose does not grow
// with their number. A worker that waits for one that has ended at its quota ends soon.
fn budget<V: RunValues, C: Compute, G: Gate>(
    workload: &Workload<'_, '_, V, C, G>,
    jobs: u32,
    quota: Option<u64>,
) -> Budget
    requires some { 0 < jobs }
    ensures workers { (0 < result.workers) × (result.workers ≤ jobs) }
    ensures nodes { 1 < result.workers → 0 < workload.now.run.nodes }
    ensures firings { result.firings ≡ quota_of quota }
{
    let nodes = workload.run.nodes();
    let work = work_of(workload);
    let all = quota.is_some() || nodes <= FEW;
    let workers = worker_count(nodes, work, jobs, all);
    let firings = quota.unwrap_or(u64::MAX);
    let takes = 2 * nodes as u64 * workload.run.limit();
    let own = work / nodes.max(1) as u64;
    let each = own - own / 3;
    let due = takes.min(firings.saturating_mul(workers as u64));
    Budget {
        workers,
        takes,
        firings,
        looks: due.saturating_mul(each) / workers as u64,
    }
}

// How many workers fire: as many as there may be, but no more than nodes, or as many as pay.
fn worker_count(nodes: usize, work: u64, jobs: u32, all: bool) -> u32
    requires some { (0 < jobs) × (nodes < 4294967296) }
    ensures workers { (0 < result) × (result ≤ jobs) }
    ensures nodes { 1 < result → 0 < nodes }
{
    if jobs == 1 || nodes < 2 {
        return 1;
    }
    let most = jobs.min(nodes as u32);
    if all {
        most
    } else {
        paying_parts(nodes, work, most)
    }
}
