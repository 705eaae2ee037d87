//! The delays of a job, and the graph of the required orders.
ghost use Rattle.std.specs.Prelude.{◌≡◌, ◌++◌, ◌≤◌, ℕ, List, IfOk, codes, length};
ghost use Rattle.ds_period.specs.Read.{delays_of};
ghost use Rattle.ds_stage.specs.Ends.{Answers, Never, RoseIn, UnlessUnread};
ghost use Rattle.ds_stage.specs.GraphStage.{IsGraphOf};
ghost use Rattle.ds_stage.specs.Stage.{then_stage};
ghost use Rattle.ds_stage.specs.Stages.{read_or_line, result_stage, text_stage};
ghost use Rattle.ds_stage.specs.PeriodStage.{delay_text as delay_text_of};
ghost use Rattle.ds_stage.specs.PeriodStage.{delays_stage, given_stage};

use crate::source::{lines_in, read_text, refused_at};
use crate::stop::Stop;
use ds_base::{Name, OutOfMemory, Refusal};
use ds_control::controller;
use ds_latch::Latches;
use ds_lines::{At, Lines};
use ds_marked::Marked;
use ds_outside::{Files, Which};
use ds_period::{DelayKind, Delays, read_delays};
use std::alloc::{AllocError, Global};

/// The controller graph of latches.
pub fn own_graph(alloc: Global, latches: &Latches<'_>) -> Result<Marked, OutOfMemory>
    ensures { IfOk result (IsGraphOf latches.now) }
{
    let graph = controller(alloc, latches)?;
    // Read for the facts that are known of the arcs of a graph.
    let _arcs = graph.arcs();
    Ok(graph)
}

/// The delays that a file gives the arcs of a graph, or what refuses them.
pub fn read_timing<F: Files>(
    alloc: Global,
    files: &mut F,
    name: &str,
    graph: &Marked,
) -> Result<Delays, Stop>
    ensures value { Answers (delays_stage (F.held files.old) name.now graph.now)
        (RoseIn (F.faults files.old) (F.faults files.new)) result }
    ensures one_each { IfOk result (λ delays. length delays ≡ length graph.now.arcs) }

    ensures same_held { F.held files.new ≡ F.held files.old }
    ensures same_reads { UnlessUnread result (F.faults files.new ≡ F.faults files.old) }
    ensures never_falls { (w : _) (n : List ℕ) → F.faults files.old w n ≤ F.faults files.new w n }
{
    let text = read_text(alloc, files, Which::Delays, name)?;
    delays_in(alloc, name, &text, graph)
}

// The delays of a text.
fn delays_in(alloc: Global, name: &str, text: &[u8], graph: &Marked) -> Result<Delays, Stop>
    ensures value { Answers (then_stage (text_stage name.now text.now)
        (given_stage name.now graph.now)) Never result }
    ensures one_each { IfOk result (λ delays. length delays ≡ length graph.now.arcs) }
{
    let lines = lines_in(alloc, name, text)?;
    given(alloc, name, &lines, graph)
}

// The delays of lines.
fn given(alloc: Global, name: &str, lines: &Lines<'_>, graph: &Marked) -> Result<Delays, Stop>
    ensures value { Answers (result_stage (read_or_line name.now delay_text_of
        (delays_of graph.now lines.now)))
        Never result }
    ensures one_each { IfOk result (λ delays. length delays ≡ length graph.now.arcs) }
{
    match read_delays(alloc, graph, lines) {
        Ok(delays) => Ok(delays),
        Err(Refusal::Fault(At { line, kind })) => {
            Err(refused_at(alloc, name, line, delay_text(alloc, &kind)))
        }
        Err(Refusal::Memory) => Err(Stop::Memory),
    }
}

// The text of a fault of a line of delays.
fn delay_text(alloc: Global, kind: &DelayKind) -> Result<Vec<u8>, AllocError>
    ensures { IfOk result (λ text. text.items ≡ delay_text_of kind.now) }
{
    match kind {
        DelayKind::BadWord => Vec::from_slice(alloc, b"bad word"),
        DelayKind::UnknownOrder(source, target) => order(alloc, b"unknown order ", source, target),
        DelayKind::RepeatedOrder(source, target) => {
            order(alloc, b"repeated order ", source, target)
        }
    }
}

// A text with the ends of an order behind it, as they stand on its line.
fn order(alloc: Global, text: &[u8], source: &Name, target: &Name) -> Result<Vec<u8>, AllocError>
    ensures { IfOk result (λ all. all.items
        ≡ text.now ++ source.now ++ codes " to " ++ target.now) }
{
    let mut all = Vec::from_slice(alloc, text)?;
    all.extend_from_slice(source.as_slice())?;
    all.extend_from_slice(b" to ")?;
    all.extend_from_slice(target.as_slice())?;
    Ok(all)
}
