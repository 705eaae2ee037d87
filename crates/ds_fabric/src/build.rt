//! How a table begins: its words, each node's first row among them, and a history for each node,
//! with one list that has room for all firings.
ghost use Rattle.std.specs.Prelude.{ℕ, ◌≡◌, ◌<◌, ◌≤◌, ◌+◌, ◌*◌, ◌++◌, length, replicate};
ghost use Rattle.std.specs.Prelude.{vec_capacity, IfOk, OnOk};
ghost use Rattle.ds_rule.specs.Sound.{IsSound, read_words};
ghost use Rattle.ds_rule.specs.Words.{width};
ghost use Rattle.ds_rule.specs.Rows.{row};
ghost use Rattle.ds_fabric.specs.Laid.{LaidBelow};
ghost use Rattle.ds_fabric.specs.Begun.{AreUnfired, IsRoomFor, first_word_of};
ghost use Rattle.ds_fabric.specs.Flight.{HasRoomFor};
ghost use Rattle.ds_fabric.specs.HistoryList.{stride_of};
ghost use Rattle.ds_fabric.specs.Ranged.{AreReadWords};
ghost use Rattle.ds_fabric.specs.Showing.{Blank};

use crate::buffers::Buffers;
use crate::compute::Compute;
use crate::histories::Histories;
use crate::history::History;
use crate::index::zeros;
use crate::places::{alone, numbered};
use ds_base::{LatchId, OutOfMemory};
use ds_rule::{RunValues, TableRun};
use std::alloc::Global;

/// The words of the table, and where the rows of each node begin.
pub fn lay<V: RunValues, C: Compute>(
    alloc: Global,
    run: &TableRun<V>,
    openings: &C,
) -> Result<(Vec<u64>, Vec<usize>), OutOfMemory>
    requires sound { IsSound run.now }
    requires openings { C.run openings.now ≡ run.now }
    ensures { IfOk result (λ r. LaidBelow run.now run.now.nodes r.0.items r.1.items) }
{
    let mut words = zero_words(alloc, run.nodes() + 1)?;
    let mut starts = Vec::new(alloc);
    for node in 0..run.nodes() {
        starts.push(words.len())?;
        lay_node(run, openings, node, &mut words)?;
    }
    Ok((words, starts))
}

// The rows of a node: its first one, and zeros for the others.
fn lay_node<V: RunValues, C: Compute>(
    run: &TableRun<V>,
    openings: &C,
    node: usize,
    words: &mut Vec<u64>,
) -> Result<(), OutOfMemory>
    requires sound { IsSound run.now }
    requires openings { C.run openings.now ≡ run.now }
    requires near { node < run.now.nodes }
    ensures { OnOk result (words.new.items ≡ (words.old.items ++ row run.now node 0)
        ++ replicate (run.now.slack * width run.now node) 0) }
{
    let width = run.width(node);
    first_row(openings, node, width, words)?;
    pad(words, run.slack() * width)?;
    Ok(())
}

// So many zeros.
fn zero_words(alloc: Global, count: usize) -> Result<Vec<u64>, OutOfMemory>
    ensures { IfOk result (λ v. v.items ≡ replicate count 0) }
{
    Ok(vec![in alloc; 0u64; count]?)
}

// The row that a node has before it opens.
fn first_row<C: Compute>(
    openings: &C,
    node: usize,
    count: usize,
    words: &mut Vec<u64>,
) -> Result<(), OutOfMemory>
    requires near { (node < (C.run openings.now).nodes) × (node < 4294967296) }
    requires count { count ≡ width (C.run openings.now) node }
    ensures { OnOk result (words.new.items ≡ words.old.items ++ row (C.run openings.now) node 0) }
{
    for i in 0..count {
        words.push(openings.first(LatchId::new(node as u32), i))?;
    }
    Ok(())
}

// So many zeros more.
fn pad(words: &mut Vec<u64>, count: usize) -> Result<(), OutOfMemory>
    ensures { OnOk result (words.new.items ≡ words.old.items ++ replicate count 0) }
{
    for i in 0..count {
        words.push(0)?;
    }
    Ok(())
}

/// The histories of all nodes, whose words stand in one list, turn by turn.
pub fn histories<V: RunValues>(
    alloc: Global,
    run: &TableRun<V>,
    reads: &[usize],
) -> Result<Histories, OutOfMemory>
    requires sound { IsSound run.now }
    requires reads { AreReadWords run.now reads.now }
    ensures { IfOk result (AreUnfired run.now) }
{
    let step = step_of(run);
    // More words than 64 bits count are no memory.
    let words = (run.limit() as usize).saturating_mul(step);
    let together = Vec::with_capacity(alloc, words)?;
    let nodes = blank_nodes(alloc, run, step)?;
    let places = numbered(alloc, run.nodes())?;
    let buffers = buffers(alloc, run, reads)?;
    Ok(Histories {
        nodes,
        places,
        apart: false,
        together,
        buffers,
    })
}

// How many words a turn of all nodes takes.
fn step_of<V: RunValues>(run: &TableRun<V>) -> usize
    requires { IsSound run.now }
    ensures { result ≡ first_word_of run.now run.now.nodes }
{
    let mut step = 0;
    for node in 0..run.nodes() {
        step += stride_of(run, node);
    }
    step
}

// The histories of all nodes before they fired, in one list of so many words a turn.
fn blank_nodes<V: RunValues>(
    alloc: Global,
    run: &TableRun<V>,
    step: usize,
) -> Result<Vec<History>, OutOfMemory>
    requires sound { IsSound run.now }
    requires step { step ≡ first_word_of run.now run.now.nodes }
    ensures blank { IfOk result (λ v. Blank run.now run.now.nodes step v.items) }
    ensures room { IfOk result (λ v. run.now.nodes ≤ vec_capacity v) }
{
    let mut first = 0;
    let mut nodes = Vec::with_capacity(alloc, run.nodes())?;
    for node in 0..run.nodes() {
        let stride = stride_of(run, node);
        nodes.push(History {
            node,
            fired: 0,
            stride,
            first,
            step,
            own: Vec::new(alloc),
        })?;
        first += stride;
    }
    Ok(nodes)
}

// Room for a firing of any node.
fn buffers<V: RunValues>(
    alloc: Global,
    run: &TableRun<V>,
    reads: &[usize],
) -> Result<Buffers, OutOfMemory>
    requires sound { IsSound run.now }
    requires reads { AreReadWords run.now reads.now }
    ensures { IfOk result (λ b. (l : ℕ) → l < run.now.nodes → HasRoomFor run.now l b) }
{
    let mut most = 0;
    let mut widest = 0;
    for node in 0..run.nodes() {
        most = reads[node].max(most);
        widest = stride_of(run, node).max(widest);
    }
    let from = Vec::with_capacity(alloc, most)?;
    let told = Vec::with_capacity(alloc, widest)?;
    Ok(Buffers { from, told })
}

/// No history yet, and room for so many. The first will be that of the node, which reads so many
/// words.
pub fn room_for<V: RunValues>(
    alloc: Global,
    run: &TableRun<V>,
    node: usize,
    reads: usize,
    room: u32,
) -> Result<Histories, OutOfMemory>
    requires sound { IsSound run.now }
    requires near { (node < run.now.nodes) × (0 < room) }
    requires reads { reads ≡ read_words run.now node (length run.now.edges) }
    ensures { IfOk result (IsRoomFor run.now node room) }
{
    let nodes = Vec::with_capacity(alloc, room as usize)?;
    let places = alone(alloc, run.nodes(), node, room)?;
    let from = Vec::with_capacity(alloc, reads)?;
    let told = Vec::with_capacity(alloc, stride_of(run, node))?;
    Ok(Histories {
        nodes,
        places,
        apart: true,
        together: Vec::new(alloc),
        buffers: Buffers { from, told },
    })
}

/// How many words each node reads at most.
pub fn reads<V: RunValues>(alloc: Global, run: &TableRun<V>) -> Result<Vec<usize>, OutOfMemory>
    requires { IsSound run.now }
    ensures { IfOk result (λ v. AreReadWords run.now v.items) }
{
    let mut totals = zeros(alloc, run.nodes())?;
    let edges = run.edges();
    for i in 0..edges.len() {
        let edge = edges[i];
        totals[edge.consumer.index()] += 1 + run.width(edge.producer.index());
    }
    Ok(totals)
}

// How many words a turn of the node takes: of a latch a row and two tickets.
fn stride_of<V: RunValues>(run: &TableRun<V>, node: usize) -> usize
    requires sound { IsSound run.now }
    requires near { node < run.now.nodes }
    ensures { result ≡ stride_of run.now node }
{
    if node < run.design_nodes() {
        run.width(node) + 2
    } else {
        1
    }
}
