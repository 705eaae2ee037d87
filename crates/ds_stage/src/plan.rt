//! The plan of a job: its latches with their controller graph, or with a graph of the user's.
ghost use Rattle.std.specs.Prelude.{◌≡◌, ◌≤◌, ℕ, List, IfErr, IfOk, Some};
ghost use Rattle.ds_astg.specs.Read.{graph_of_lines as graph_in_lines};
ghost use Rattle.ds_accept.specs.Fault.{IsAcceptFault};
ghost use Rattle.ds_stage.specs.Ends.{Answers, Never, RoseIn, Stops, UnlessUnread};
ghost use Rattle.ds_stage.specs.Stage.{then_stage};
ghost use Rattle.ds_stage.specs.Stages.{read_or_line, result_stage, text_stage};
ghost use Rattle.ds_stage.specs.GraphText.{astg_text as astg_text_of};
ghost use Rattle.ds_stage.specs.PlanStage.{IsOwnPlan, acceptable_stage};
ghost use Rattle.ds_stage.specs.PlanStage.{marked_stage, named_stage, plan_stage, planned_stage};

use crate::source::{lines_in, read_text, refused, refused_at};
use crate::split::split_netlist;
use crate::splitting::Splitting;
use crate::stop::Stop;
use crate::{accept_text, astg_text};
use ds_accept::{AcceptFault, accept};
use ds_astg::read;
use ds_base::Refusal;
use ds_cmd::FileName;
use ds_control::controller;
use ds_design::Netlist;
use ds_latch::{Latches, Plan};
use ds_lines::{At, Lines};
use ds_marked::Marked;
use ds_outside::{Files, Which};
use std::alloc::Global;

/// The plan of a netlist that is split so: with the graph of a file, where one is named, else with
/// its controller graph. `net` is the netlist's file.
pub fn plan_netlist<'a, F: Files>(
    alloc: Global,
    files: &mut F,
    net: &str,
    netlist: &'a Netlist,
    graph: &Option<FileName>,
    splitting: Splitting<'_>,
) -> Result<Plan<'a>, Stop>
    requires { splitting.slack ≤ 15 }
    ensures value { Answers (planned_stage (F.held files.old) net.now graph.now
        splitting.entry.groups.now splitting.entry.clusters splitting.entry.slack netlist.entry.now)
        (RoseIn (F.faults files.old) (F.faults files.new)) result }

    ensures same_held { F.held files.new ≡ F.held files.old }
    ensures same_reads { UnlessUnread result (F.faults files.new ≡ F.faults files.old) }
    ensures never_falls { (w : _) (n : List ℕ) → F.faults files.old w n ≤ F.faults files.new w n }
{
    let latches = split_netlist(alloc, files, net, netlist, splitting)?;
    plan_of(alloc, files, graph, latches.with_slack(splitting.slack))
}

// The plan of latches.
fn plan_of<'a, F: Files>(
    alloc: Global,
    files: &mut F,
    graph: &Option<FileName>,
    latches: Latches<'a>,
) -> Result<Plan<'a>, Stop>
    ensures value { Answers (plan_stage (F.held files.old) graph.now latches.entry)
        (RoseIn (F.faults files.old) (F.faults files.new)) result }

    ensures same_held { F.held files.new ≡ F.held files.old }
    ensures same_reads { UnlessUnread result (F.faults files.new ≡ F.faults files.old) }
    ensures never_falls { (w : _) (n : List ℕ) → F.faults files.old w n ≤ F.faults files.new w n }
{
    match graph {
        Some(file) => named_plan(alloc, files, file.as_str(), latches),
        None => match own_plan(alloc, latches) {
            Ok(plan) => Ok(plan),
            Err(_) => Err(Stop::Memory),
        },
    }
}

/// The plan of the required orders. For want of memory the latches come back.
pub fn own_plan<'a>(alloc: Global, latches: Latches<'a>) -> Result<Plan<'a>, Latches<'a>>
    ensures ok { IfOk result (IsOwnPlan latches.entry) }
    ensures back { IfErr result (λ r. r ≡ latches.entry) }
{
    match controller(alloc, &latches) {
        Ok(graph) => {
            // Read for the facts that are known of the arcs of a graph.
            let _arcs = graph.arcs();
            Ok(Plan::of(latches, graph))
        }
        Err(_) => Err(latches),
    }
}

/// The plan of a netlist that is split so, with the graph of a file.
pub fn plan_named<'a, F: Files>(
    alloc: Global,
    files: &mut F,
    net: &str,
    netlist: &'a Netlist,
    graph: &str,
    splitting: Splitting<'_>,
) -> Result<Plan<'a>, Stop>
    requires { splitting.slack ≤ 15 }
    ensures value { Answers (planned_stage (F.held files.old) net.now (Some graph.now)
        splitting.entry.groups.now splitting.entry.clusters splitting.entry.slack netlist.entry.now)
        (RoseIn (F.faults files.old) (F.faults files.new)) result }

    ensures same_held { F.held files.new ≡ F.held files.old }
    ensures same_reads { UnlessUnread result (F.faults files.new ≡ F.faults files.old) }
    ensures never_falls { (w : _) (n : List ℕ) → F.faults files.old w n ≤ F.faults files.new w n }
{
    let latches = split_netlist(alloc, files, net, netlist, splitting)?;
    named_plan(alloc, files, graph, latches.with_slack(splitting.slack))
}

// The plan of the graph of a file.
fn named_plan<'a, F: Files>(
    alloc: Global,
    files: &mut F,
    name: &str,
    latches: Latches<'a>,
) -> Result<Plan<'a>, Stop>
    ensures value { Answers (named_stage (F.held files.old) name.now latches.entry)
        (RoseIn (F.faults files.old) (F.faults files.new)) result }

    ensures same_held { F.held files.new ≡ F.held files.old }
    ensures same_reads { UnlessUnread result (F.faults files.new ≡ F.faults files.old) }
    ensures never_falls { (w : _) (n : List ℕ) → F.faults files.old w n ≤ F.faults files.new w n }
{
    let text = read_text(alloc, files, Which::Graph, name)?;
    plan_in(alloc, name, &text, latches)
}

// The plan of the graph of a text.
fn plan_in<'a>(
    alloc: Global,
    name: &str,
    text: &[u8],
    latches: Latches<'a>,
) -> Result<Plan<'a>, Stop>
    ensures { Answers (then_stage (text_stage name.now text.now)
        (marked_stage name.now latches.entry)) Never result }
{
    let lines = lines_in(alloc, name, text)?;
    let graph = graph_in(alloc, name, &lines)?;
    accepted_plan(alloc, name, latches, graph)
}

/// The graph of lines, or their first fault.
pub(crate) fn graph_in(alloc: Global, name: &str, lines: &Lines<'_>) -> Result<Marked, Stop>
    ensures { Answers (result_stage (read_or_line name.now astg_text_of (graph_in_lines lines.now)))
        Never result }
{
    match read(alloc, lines) {
        Ok(graph) => Ok(graph),
        Err(Refusal::Fault(At { line, kind })) => {
            Err(refused_at(alloc, name, line, astg_text(alloc, &kind)))
        }
        Err(Refusal::Memory) => Err(Stop::Memory),
    }
}

// The plan of a graph that is accepted.
fn accepted_plan<'a>(
    alloc: Global,
    name: &str,
    latches: Latches<'a>,
    graph: Marked,
) -> Result<Plan<'a>, Stop>
    ensures { Answers (acceptable_stage name.now latches.entry graph) Never result }
{
    // Read for the facts that are known of the arcs of a graph.
    let _arcs = graph.arcs();
    match accept(alloc, latches, graph) {
        Ok(plan) => Ok(plan),
        Err((latches, graph, fault)) => Err(not_accepted(alloc, name, &latches, &graph, &fault)),
    }
}

// The stop of a graph that is not accepted.
fn not_accepted(
    alloc: Global,
    name: &str,
    latches: &Latches<'_>,
    graph: &Marked,
    fault: &AcceptFault,
) -> Stop
    requires { IsAcceptFault latches.now graph.now fault.now }
    ensures { Stops (acceptable_stage name.now latches.now graph.now) Never result }
{
    match accept_text(alloc, graph, fault) {
        Ok(text) => refused(alloc, name, &text),
        Err(_) => Stop::Memory,
    }
}
