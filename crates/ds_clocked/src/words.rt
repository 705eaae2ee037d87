//! The lines of a window in which no register feeds back and all values are known: 64 turns at
//! once.
ghost use Rattle.std.specs.Prelude.{◌≡◌, ◌↔◌, ◌+◌, ◌-◌, ◌^◌, ◌<◌, ◌≤◌, All, length, IfOk, IfSome};
ghost use Rattle.std.specs.Prelude.{IsTrue};
ghost use Rattle.ds_base.specs.Values.{AreKnown};
ghost use Rattle.ds_cover.specs.Cover.{values_at};
ghost use Rattle.ds_design.specs.Circuit.{columns, data_nets};
ghost use Rattle.ds_clocked.specs.Appends.{PutsLines, WritesLines};
ghost use Rattle.ds_clocked.specs.Words.{IsKnownWindow, PutsTurns};
ghost use Rattle.ds_slices.specs.Ready.{AreReady};
ghost use Rattle.ds_slices.specs.Turns.{turn_row};

use crate::clocked_netlist::ClockedNetlist;
use ds_base::{OutOfMemory, Row3};
use ds_design::{Netlist, Vectors};
use ds_outside::{Buffered, Pen, Sink, WriteFault};
use ds_slices::{Slices, begin_turn, put_turn_line, set_state, set_words};
use std::alloc::Global;

// The least turns of the window in which feedback is looked for: a look takes as long as some
// hundred turns.
const LEAST: usize = 1_024;

/// The registers before a turn, and what the words of 64 turns are worked out in.
#[derive(Drop)]
pub struct Sliced {
    pub state: Row3,
    pub slices: Slices,
}

// Room for a window that begins with these registers, if it is long enough, no register feeds back
// and no value is unknown. It is taken out of what is kept, and given back after the window.
pub(crate) fn words_for(
    alloc: Global,
    clocked: &mut ClockedNetlist<'_>,
    start: &Row3,
    vectors: &Vectors,
) -> Result<Option<Sliced>, OutOfMemory>
    requires start { length start.now ≡ length clocked.old.registers }
    ensures begun { IfOk result (λ found. IfSome found
        (IsKnownWindow clocked.old start.now vectors.now.rows)) }
    ensures same { clocked.new ≡ clocked.old }
{
    let may_be = if clocked.asked {
        clocked.slices.is_some()
    } else {
        vectors.count() >= LEAST
    };
    if !may_be || !start.all_known() || !are_known(vectors) {
        return Ok(None);
    }
    clocked.ask(alloc)?;
    match clocked.slices.take() {
        Some(slices) => Ok(Some(begun(alloc, start, slices)?)),
        None => Ok(None),
    }
}

// Begun with these registers.
fn begun(alloc: Global, start: &Row3, slices: Slices) -> Result<Sliced, OutOfMemory>
    ensures state { IfOk result (λ words. words.state ≡ start.now) }
    ensures slices { IfOk result (λ words. words.slices ≡ slices) }
{
    let mut state = Row3::with_len(alloc, start.len())?;
    state.copy_from(start);
    Ok(Sliced { state, slices })
}

// Whether no vector has an unknown value.
fn are_known(vectors: &Vectors) -> bool
    ensures { IsTrue result → All AreKnown vectors.now.rows }
{
    for k in 0..vectors.count() {
        if !vectors.row(k).all_known() {
            return false;
        }
    }
    true
}

// Writes the lines of these turns by way of a buffer, and leaves the row after them in `words`.
pub(crate) fn write_words<O: Sink>(
    netlist: &Netlist,
    first: u64,
    vectors: &Vectors,
    words: &mut Sliced,
    out: &mut O,
) -> Result<(), WriteFault>
    requires width { vectors.now.width ≡ length (columns netlist.now) }
    requires begun { IsKnownWindow netlist.now words.old.state vectors.now.rows words.old }
    requires few { first + length vectors.now.rows < 2 ^ 64 }
    ensures written { WritesLines result netlist.now first words.old.state vectors.now.rows
        words.new.state (O.written out.old) (O.written out.new) (O.faults out.old)
        (O.faults out.new) }
    ensures ready { AreReady netlist.now words.new.slices }
{
    let mut pen = Buffered::new(out);
    put_words(netlist, first, vectors, words, &mut pen);
    pen.finish()
}

// Writes the lines of these turns, and leaves the row after them in `words`.
fn put_words<P: Pen>(
    netlist: &Netlist,
    first: u64,
    vectors: &Vectors,
    words: &mut Sliced,
    pen: &mut P,
)
    requires width { vectors.now.width ≡ length (columns netlist.now) }
    requires begun { IsKnownWindow netlist.now words.old.state vectors.now.rows words.old }
    requires few { first + length vectors.now.rows < 2 ^ 64 }
    ensures lines { PutsLines (P.writing pen.old) (P.writing pen.new) netlist.now first
        words.old.state vectors.now.rows words.new.state }
    ensures ready { AreReady netlist.now words.new.slices }
{
    let mut from = 0;
    'writing: while from < vectors.count() {
        set_words(netlist, &words.state, vectors, from, &mut words.slices);
        let count = (vectors.count() - from).min(64);
        put_slice(netlist, first + from as u64, count, words, pen);
        from += count;
    }
}

// Writes the lines of so many turns of the words, numbered from a first one on, and leaves the row
// after them.
fn put_slice<P: Pen>(netlist: &Netlist, first: u64, count: usize, words: &mut Sliced, pen: &mut P)
    requires ready { AreReady netlist.now words.old.slices }
    requires state { length words.old.state ≡ length netlist.now.registers }
    requires count { (0 < count) × (count ≤ 64) }
    requires few { first + count < 2 ^ 64 }
    ensures ready { AreReady netlist.now words.new.slices }
    ensures state { words.new.state
        ≡ values_at (turn_row words.old.slices.words.items (count - 1)) (data_nets netlist.now) }
    ensures lines { PutsTurns (P.writing pen.old) (P.writing pen.new) netlist.now first count
        words.old.slices.words.items }
{
    let design = netlist.design();
    put_lines(netlist, first, count, &mut words.slices, pen);
    let bits = words.slices.words.as_slice();
    set_state(design.registers(), bits, count - 1, &mut words.state);
}

// Writes the lines of so many turns of the words, numbered from a first one on.
fn put_lines<P: Pen>(netlist: &Netlist, first: u64, count: usize, slices: &mut Slices, pen: &mut P)
    requires ready { AreReady netlist.now slices.old }
    requires count { count ≤ 64 }
    requires few { first + count < 2 ^ 64 }
    ensures ready { AreReady netlist.now slices.new }
    ensures same { slices.new.words ≡ slices.old.words }
    ensures lines { PutsTurns (P.writing pen.old) (P.writing pen.new) netlist.now first count
        slices.old.words.items }
{
    for turn in 0..count {
        begin_turn(netlist, turn, slices);
        put_turn_line(slices, turn % 8, first + turn as u64, pen);
    }
}
