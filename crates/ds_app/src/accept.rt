//! `accept`: the ranks of a graph of the user's that is accepted.
ghost use Rattle.std.specs.Prelude.{◌≡◌, ◌≤◌, IfOk, length};
ghost use Rattle.ds_outside.specs.Pen.{Puts};
ghost use Rattle.ds_outside.specs.Writes.{Writes};
ghost use Rattle.ds_rank.specs.Rank.{AreRanks};
ghost use Rattle.ds_stage.specs.Ends.{Ends, Never, RoseIn, UnlessUnread, UnlessUnwritten};
ghost use Rattle.ds_stage.specs.Ends.{output_between};
ghost use Rattle.ds_stage.specs.AcceptStage.{rank_lines, ranks_stage, ranks_text};
ghost use Rattle.ds_stage.specs.Stage.{then_stage};
ghost use Rattle.ds_stage.specs.Stages.{netlist_stage};
ghost use Rattle.ds_app.specs.JobStages.{accept_stage};

use ds_base::{EventId, OutOfMemory};
use ds_cmd::AcceptJob;
use ds_latch::Plan;
use ds_outside::{Buffered, Files, Pen, Sink, WriteFault};
use ds_rank::{RankFault, Ranks, rank};
use ds_rows::put_firing;
use ds_stage::{Splitting, Stop, plan_named, read_netlist};
use std::alloc::Global;

/// Reads a netlist, accepts the graph for it, and writes the ranks of its events.
#[tactic(auto)]
pub fn accept<F: Files, O: Sink>(
    alloc: Global,
    job: &AcceptJob,
    files: &mut F,
    out: &mut O,
) -> Result<(), Stop>
    requires { job.now.slack ≤ 15 }
    ensures value { Ends (then_stage (netlist_stage (F.held files.old) job.now.net)
        (accept_stage (F.held files.old) job.now))
        (RoseIn (F.faults files.old) (F.faults files.new))
        (output_between O.written O.faults out.old out.new) result }

    ensures same_held { F.held files.new ≡ F.held files.old }
    ensures same_reads { UnlessUnread result (F.faults files.new ≡ F.faults files.old) }
    ensures same_writes { UnlessUnwritten result (O.faults out.new ≡ O.faults out.old) }
{
    let graph = job.graph.as_str();
    let net = job.net.as_str();
    let netlist = read_netlist(alloc, files, net)?;
    let splitting = Splitting {
        clusters: job.clusters,
        groups: &job.groups,
        slack: job.slack,
    };
    let plan = plan_named(alloc, files, net, &netlist, graph, splitting)?;
    write_accepted(alloc, &plan, out)
}

// Writes `accepted`, and a line for each event of a plan, in order: the event and its rank.
fn write_accepted<O: Sink>(alloc: Global, plan: &Plan<'_>, out: &mut O) -> Result<(), Stop>
    ensures value { Ends (ranks_stage plan.now) Never
        (output_between O.written O.faults out.old out.new) result }

    ensures same_writes { UnlessUnwritten result (O.faults out.new ≡ O.faults out.old) }
{
    let ranks = ranks_of(alloc, plan)?;
    match write_ranks(plan, &ranks, out) {
        Ok(()) => Ok(()),
        Err(_) => Err(Stop::Unwritten),
    }
}

/// The ranks of a plan's events. In a graph that is accepted nothing waits for itself.
pub(crate) fn ranks_of(alloc: Global, plan: &Plan<'_>) -> Result<Ranks, OutOfMemory>
    ensures { IfOk result (λ ranks. AreRanks plan.now.graph ranks) }
{
    match rank(alloc, plan.graph()) {
        Ok(ranks) => Ok(ranks),
        Err(RankFault::Memory) => Err(OutOfMemory),
        Err(RankFault::Cycle(_)) => unreachable!(),
    }
}

// Writes the text by way of a buffer.
fn write_ranks<O: Sink>(plan: &Plan<'_>, ranks: &Ranks, out: &mut O) -> Result<(), WriteFault>
    requires ranks { AreRanks plan.now.graph ranks.now }
    ensures { Writes result (O.written out.old) (O.written out.new) (O.faults out.old)
        (O.faults out.new) (ranks_text plan.now.graph ranks.now) }
{
    let mut pen = Buffered::new(out);
    pen.put(b"accepted\n");
    put_ranks(plan, ranks, &mut pen);
    pen.finish()
}

// Writes the lines of all events: each with its rank.
fn put_ranks<P: Pen>(plan: &Plan<'_>, ranks: &Ranks, pen: &mut P)
    requires { AreRanks plan.now.graph ranks.now }
    ensures { Puts (P.writing pen.old) (P.writing pen.new)
        (rank_lines plan.now.graph ranks.now (length plan.now.graph.events)) }
{
    for v in 0..plan.graph().events().len() {
        let event = EventId::new(v as u32);
        put_firing(plan, event, ranks.at(event), pen);
    }
}
