//! The graph of a file of which a period is asked, without a netlist.
ghost use Rattle.std.specs.Prelude.{◌≡◌, ◌≤◌, ℕ, List, IfErr, IfOk};
ghost use Rattle.ds_marked.specs.Graph.{IsLive};
ghost use Rattle.ds_rank.specs.Order.{IsCycle};
ghost use Rattle.ds_rank.specs.Rank.{HasFreeArc};
ghost use Rattle.ds_period.specs.Controller.{HasPeriod};
ghost use Rattle.ds_period.specs.Timing.{HasCycle};
ghost use Rattle.ds_stage.specs.Ends.{Answers, Never, RoseIn, Stops, UnlessUnread};
ghost use Rattle.ds_stage.specs.RateStage.{bare_graph_stage, bare_stage, cyclic_stage};
ghost use Rattle.ds_stage.specs.Stage.{then_stage};
ghost use Rattle.ds_stage.specs.Stages.{text_stage};

use crate::accept_text;
use crate::plan::graph_in;
use crate::source::{lines_in, read_text, refused};
use crate::stop::Stop;
use ds_accept::AcceptFault;
use ds_base::{EventId, Seq};
use ds_marked::Marked;
use ds_outside::{Files, Which};
use ds_period::has_cycle;
use ds_rank::{RankFault, rank};
use std::alloc::Global;

/// The graph of a file, in which each cycle has a token and some cycle is there, or what refuses
/// it: a fault of the text, then a cycle without tokens, then that there is no cycle.
pub fn read_bare_graph<F: Files>(alloc: Global, files: &mut F, name: &str) -> Result<Marked, Stop>
    ensures value { Answers (bare_graph_stage (F.held files.old) name.now)
        (RoseIn (F.faults files.old) (F.faults files.new)) result }
    ensures period { IfOk result HasPeriod }

    ensures same_held { F.held files.new ≡ F.held files.old }
    ensures same_reads { UnlessUnread result (F.faults files.new ≡ F.faults files.old) }
    ensures never_falls { (w : _) (n : List ℕ) → F.faults files.old w n ≤ F.faults files.new w n }
{
    let text = read_text(alloc, files, Which::Graph, name)?;
    bare_in(alloc, name, &text)
}

// The graph of a text.
fn bare_in(alloc: Global, name: &str, text: &[u8]) -> Result<Marked, Stop>
    ensures value { Answers (then_stage (text_stage name.now text.now) (bare_stage name.now))
        Never result }
    ensures period { IfOk result HasPeriod }
{
    let lines = lines_in(alloc, name, text)?;
    let graph = graph_in(alloc, name, &lines)?;
    cyclic(alloc, name, graph)
}

// A graph in which each cycle has a token and some cycle is there.
fn cyclic(alloc: Global, name: &str, graph: Marked) -> Result<Marked, Stop>
    ensures value { Answers (cyclic_stage name.now graph) Never result }
    ensures period { IfOk result HasPeriod }
{
    match check_cycles(alloc, name, &graph) {
        Ok(()) => Ok(graph),
        Err(stop) => Err(stop),
    }
}

// Whether each cycle of a graph has a token and some cycle is there.
fn check_cycles(alloc: Global, name: &str, graph: &Marked) -> Result<(), Stop>
    ensures ok { IfOk result (λ _. HasPeriod graph.now) }
    ensures stop { IfErr result (Stops (cyclic_stage name.now graph.now) Never) }
{
    match check_tokens(alloc, name, graph) {
        Ok(()) => check_cycle(alloc, name, graph),
        Err(stop) => Err(stop),
    }
}

// Whether each cycle of a graph has a token.
fn check_tokens(alloc: Global, name: &str, graph: &Marked) -> Result<(), Stop>
    ensures ok { IfOk result (λ _. IsLive graph.now) }
    ensures stop { IfErr result (Stops (cyclic_stage name.now graph.now) Never) }
{
    // Read for the facts that are known of the arcs of a graph.
    let _arcs = graph.arcs();
    match rank(alloc, graph) {
        Ok(_) => Ok(()),
        Err(RankFault::Cycle(events)) => Err(free_cycle(alloc, name, graph, events)),
        Err(RankFault::Memory) => Err(Stop::Memory),
    }
}

// The stop of arcs without tokens that lead in a circle.
fn free_cycle(alloc: Global, name: &str, graph: &Marked, events: Seq<EventId>) -> Stop
    requires { IsCycle (HasFreeArc graph.now) events }
    ensures { Stops (cyclic_stage name.now graph.now) Never result }
{
    let fault = AcceptFault::TokenFreeCycle(events);
    match accept_text(alloc, graph, &fault) {
        Ok(text) => refused(alloc, name, &text),
        Err(_) => Stop::Memory,
    }
}

// Whether some cycle of a graph is there.
fn check_cycle(alloc: Global, name: &str, graph: &Marked) -> Result<(), Stop>
    ensures ok { IfOk result (λ _. HasCycle graph.now) }
    ensures stop { IfErr result (Stops (cyclic_stage name.now graph.now) Never) }
{
    let Ok(some) = has_cycle(alloc, graph) else {
        return Err(Stop::Memory);
    };
    if some {
        Ok(())
    } else {
        Err(refused(alloc, name, b"no cycle"))
    }
}
