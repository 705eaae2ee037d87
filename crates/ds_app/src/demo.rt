//! `demo`: the summary of a run of the design that is made from a number.
ghost use Rattle.std.specs.Prelude.{◌≡◌, ◌≤◌, ◌<◌, ℕ, List, [], IfOk};
ghost use Rattle.ds_base.specs.Limit.{most_of};
ghost use Rattle.ds_base.specs.declared.number.Limit.TheVariants.{Clusters, Vectors as VectorLimit};
ghost use Rattle.ds_base.specs.declared.number.Mode.TheVariants.{Each};
ghost use Rattle.ds_design.specs.Accepted.{IsAccepted};
ghost use Rattle.ds_design.specs.Circuit.{initial_row};
ghost use Rattle.ds_outside.specs.Writes.{Writes};
ghost use Rattle.ds_netlist.specs.declared.fault.NetFault.TheVariants.{Memory};
ghost use Rattle.ds_app.specs.DemoStage.{AreSums, demo_stage, summary_text};
ghost use Rattle.ds_stage.specs.Ends.{Ends, Never, UnlessUnwritten, output_between};
ghost use Rattle.ds_stage.specs.SplitStage.{parted_stage};

use ds_base::{Mode, OutOfMemory};
use ds_cmd::DemoJob;
use ds_demo::make;
use ds_design::{Design, Netlist};
use ds_latch::Plan;
use ds_netlist::{NetFault, levelise};
use ds_outside::{Gate, OnSink, Sink, WriteFault};
use ds_run::{Sums, WorkerSettings, sum_run};
use ds_stage::{Stop, no_groups, own_plan, put_count, split_groups};
use std::alloc::Global;
use std::thread::Threads;

/// Makes a design and vectors from a number, runs them, and writes the summary.
pub fn demo<R: AllocGlobal + Threads + Sync, G: Gate, O: Sink>(
    rt: &R,
    job: &DemoJob,
    gate: &G,
    out: &mut O,
) -> Result<(), Stop>
    requires registers { (1 ≤ job.now.registers) × (job.now.registers ≤ most_of Clusters) }
    requires turns { job.now.turns ≤ most_of VectorLimit }
    requires jobs { (0 < job.now.jobs) × (job.now.jobs ≤ 64) }
    ensures value { Ends (demo_stage job.now.seed job.now.registers job.now.turns) Never
        (output_between O.written O.faults out.old out.new) result }

    ensures same_writes { UnlessUnwritten result (O.faults out.new ≡ O.faults out.old) }
{
    let Ok(sums) = sums_of(rt, job, gate) else {
        return Err(Stop::Memory);
    };
    match write_summary(job.registers, job.turns, sums.ones, sums.fold, out) {
        Ok(()) => Ok(()),
        Err(_) => Err(Stop::Unwritten),
    }
}

// The four lines.
fn write_summary<O: Sink>(
    registers: u32,
    turns: u32,
    ones: u64,
    fold: u64,
    out: &mut O,
) -> Result<(), WriteFault>
    requires few { turns ≤ most_of VectorLimit }
    ensures { Writes result (O.written out.old) (O.written out.new) (O.faults out.old)
        (O.faults out.new) (summary_text registers turns ones fold) }
{
    let firings = 4 * turns as u64 * (registers as u64 + 1);
    let mut pen = OnSink::new(out);
    put_count(b"turns", turns as u64, &mut pen);
    put_count(b"firings", firings, &mut pen);
    put_count(b"ones", ones, &mut pen);
    put_count(b"fold", fold, &mut pen);
    pen.finish()
}

// What the run of a made design sums up to.
fn sums_of<R: AllocGlobal + Threads + Sync, G: Gate>(
    rt: &R,
    job: &DemoJob,
    gate: &G,
) -> Result<Sums, OutOfMemory>
    requires registers { (1 ≤ job.now.registers) × (job.now.registers ≤ most_of Clusters) }
    requires turns { job.now.turns ≤ most_of VectorLimit }
    requires jobs { (0 < job.now.jobs) × (job.now.jobs ≤ 64) }
    ensures { IfOk result (λ sums. AreSums job.now.seed job.now.registers job.now.turns
        sums.ones sums.fold) }
{
    let alloc = rt.alloc();
    let (design, vectors) = make(alloc, job.seed, job.registers, job.turns)?;
    let netlist = netlist_of(alloc, design)?;
    let plan = plan_for(alloc, &netlist)?;
    let workers = WorkerSettings {
        threads: rt,
        jobs: job.jobs,
        gate,
    };
    sum_run(&plan, &vectors, &workers)
}

// The netlist of a design that is accepted.
fn netlist_of(alloc: Global, design: Design) -> Result<Netlist, OutOfMemory>
    requires { IsAccepted design }
    ensures { IfOk result (λ netlist. netlist ≡ design) }
{
    match levelise(alloc, design) {
        Ok(netlist) => Ok(netlist),
        Err(refusal) => Err(memory_in(&refusal.1)),
    }
}

// The want of memory that a fault is.
fn memory_in(fault: &NetFault) -> OutOfMemory
    requires { fault.now ≡ Memory }
{
    match fault {
        NetFault::Memory => OutOfMemory,
        NetFault::SeveralClocks(_, _) => unreachable!(),
        NetFault::MixedEdges(_, _) => unreachable!(),
        NetFault::DrivenClock(_) => unreachable!(),
        NetFault::ClockAsData(_) => unreachable!(),
        NetFault::MultiplyDriven(_, _, _) => unreachable!(),
        NetFault::Undriven(_) => unreachable!(),
        NetFault::CombinationalCycle(_) => unreachable!(),
    }
}

// Its plan, each register in a cluster of its own, where no line refuses its split.
fn plan_for<'a>(alloc: Global, netlist: &'a Netlist) -> Result<Plan<'a>, OutOfMemory>
    requires { (line : List ℕ) → ¬ (parted_stage [] Each netlist.now []).refused line }
    ensures netlist { IfOk result (λ plan. plan.split.circuit ≡ netlist.entry.now) }
    ensures start { IfOk result (λ plan. plan.split.initial ≡ initial_row netlist.entry.now) }
{
    let none = no_groups(alloc);
    match split_groups(alloc, "", netlist, Mode::Each, &none) {
        Ok(latches) => match own_plan(alloc, latches) {
            Ok(plan) => Ok(plan),
            Err(_) => Err(OutOfMemory),
        },
        Err(Stop::Memory) => Err(OutOfMemory),
        Err(Stop::Refused(_)) => unreachable!(),
        Err(Stop::Unread(_)) => unreachable!(),
        Err(Stop::Unwritten) => unreachable!(),
    }
}
