//! What a run sums up to, without its text.
ghost use Rattle.std.specs.Prelude.{◌≡◌, ◌<◌, ◌≤◌, ◌^◌, IfOk, List, OnOk, length};
ghost use Rattle.ds_base.specs.Values.{Row};
ghost use Rattle.ds_design.specs.Circuit.{columns, initial_row};
ghost use Rattle.ds_design.specs.Trace.{trace_line as trace_text, end_line as end_text};
ghost use Rattle.ds_demo.specs.Fold.{nothing, fold_after};
ghost use Rattle.ds_run.specs.TraceRows.{HasLine};
ghost use Rattle.ds_run.specs.Finished.{IsFinishedOn};
ghost use Rattle.ds_run.specs.Summed.{IsSummed, IsSummedTo, ones_of};

use crate::lines_text::LinesText;
use crate::stored_turns::StoredTurns;
use crate::trace_rows::{TraceRows, copy_stored};
use crate::{WorkerSettings, run};
use ds_base::{OutOfMemory, Row3, Value};
use ds_demo::Fold;
use ds_design::Vectors;
use ds_latch::{Node, Plan};
use ds_outside::Gate;
use ds_rows::{end_line, trace_line};
use std::alloc::Global;
use std::thread::Threads;

/// How many values of all output rows are 1, and the sum of the trace: of its bytes, each times its
/// place counted from 1, modulo 2 ^ 64.
#[derive(Clone, Copy, Debug, PartialEq, Eq)]
pub struct Sums {
    pub ones: u64,
    pub fold: u64,
}

/// Runs a plan by these workers and sums its trace up. One line is kept at a time. Want of memory
/// is the only fault.
pub fn sum_run<R: AllocGlobal + Threads + Sync, G: Gate>(
    plan: &Plan<'_>,
    vectors: &Vectors,
    workers: &WorkerSettings<'_, R, G>,
) -> Result<Sums, OutOfMemory>
    requires width { vectors.now.width ≡ length (columns plan.now.split.circuit) }
    requires start { plan.now.split.initial ≡ initial_row plan.now.split.circuit }
    requires jobs { (0 < workers.now.jobs) × (workers.now.jobs ≤ 64) }
    ensures { IfOk result (IsSummed plan.now vectors.now.rows) }
{
    let alloc = workers.threads.alloc();
    let mut line = TraceRows::of(alloc, plan.latches())?;
    let recorded = run(plan, vectors, workers)?;
    let stored = StoredTurns {
        plan,
        recorded: &recorded,
        turns: vectors.count(),
        first: 0,
    };
    let mut fold = Fold::new();
    let ones = sum_turns(alloc, &stored, &mut line, &mut fold)?;
    add_end(alloc, &line.registers, &mut fold)?;
    Ok(Sums {
        ones,
        fold: fold.sum(),
    })
}

// Adds the lines of all turns, and leaves the registers after the last one. Gives the number of
// ones in the output rows.
fn sum_turns(
    alloc: Global,
    stored: &StoredTurns<'_, '_>,
    line: &mut TraceRows,
    fold: &mut Fold,
) -> Result<u64, OutOfMemory>
    requires stored { (vectors : List Row)
        × IsFinishedOn stored.now.plan.now stored.now.turns stored.now.recorded.now vectors }
    requires few { stored.now.turns < 2 ^ 32 }
    requires line { HasLine stored.now.plan.now.split line.old }
    requires registers { line.old.registers ≡ stored.now.plan.now.split.initial }
    requires fold { fold.old ≡ nothing }
    ensures { IfOk result (λ ones. (vectors : List Row)
        → IsFinishedOn stored.now.plan.now stored.now.turns stored.now.recorded.now vectors
        → IsSummedTo stored.now.plan.now vectors ones line.new.registers fold.new) }
{
    let mut ones = 0;
    for k in 0..stored.turns {
        stored.recorded.row(Node::Out.latch(), k, &mut line.outputs);
        ones += count_ones(&line.outputs);
        add_line(alloc, k as u64, line, fold)?;
        copy_stored(stored.plan.latches(), stored.recorded, k, line);
    }
    Ok(ones)
}

// How many values of a row are 1.
fn count_ones(row: &Row3) -> u64
    ensures value { result ≡ ones_of row.now }
    ensures most { result ≤ length row.now }
{
    let mut ones = 0;
    for i in 0..row.len() {
        if matches!(row.value(i), Value::One) {
            ones += 1;
        }
    }
    ones
}

// Adds the line of a turn.
fn add_line(alloc: Global, turn: u64, line: &TraceRows, fold: &mut Fold) -> Result<(), OutOfMemory>
    ensures { OnOk result
        (fold.new ≡ fold_after fold.old (trace_text turn line.now.outputs line.now.registers)) }
{
    let room = room_for(line.outputs.len()).saturating_add(room_for(line.registers.len()));
    let mut text = LinesText::with_room(alloc, room)?;
    match trace_line(turn, &line.outputs, &line.registers, &mut text) {
        Ok(()) => {
            fold.add(text.bytes());
            Ok(())
        }
        Err(_) => Err(text.refusal()),
    }
}

// Adds the last line.
fn add_end(alloc: Global, registers: &Row3, fold: &mut Fold) -> Result<(), OutOfMemory>
    ensures { OnOk result (fold.new ≡ fold_after fold.old (end_text registers.now)) }
{
    let mut text = LinesText::with_room(alloc, room_for(registers.len()))?;
    match end_line(registers, &mut text) {
        Ok(()) => {
            fold.add(text.bytes());
            Ok(())
        }
        Err(_) => Err(text.refusal()),
    }
}

// Room for so many values and what else a line has.
fn room_for(values: usize) -> usize {
    values.saturating_add(32)
}
