//! The clocked run: 64 turns at once where no register feeds back and all values are known, and
//! else turn by turn: the nets are settled, the line is written, and each register takes its data
//! net. The text goes through a buffer, and all memory is taken before the first byte.
ghost use Rattle.std.specs.Prelude.{◌≡◌, ◌≢◌, ◌+◌, ◌^◌, ◌<◌, ◌≤◌, length, IfOk};
ghost use Rattle.ds_outside.specs.Fault.{Rose};
ghost use Rattle.ds_design.specs.Circuit.{columns};
ghost use Rattle.ds_clocked.specs.Appends.{AppendsLines, AppendsLinesPart, PutsLines, WritesLines};

use crate::clocked_netlist::ClockedNetlist;
use crate::words::{words_for, write_words};
use ds_base::{NetId, OutOfMemory, Row3};
use ds_design::{Netlist, Register, Vectors};
use ds_outside::{Buffered, Pen, Sink, WriteFault};
use ds_rows::put_trace_line;
use ds_settle::{pick_data, pick_values, settle};
use std::alloc::Global;

/// Why a trace is not written whole: a write failed, or memory was wanted and not found.
#[derive(Clone, Copy, Debug, PartialEq, Eq)]
pub enum SimFault {
    Write,
    Memory,
}

/// Writes the lines of a window of a run, numbered from `first` on and with `start` as the
/// registers before it, without the line `end`. Gives the registers after its last turn, one value
/// per register. `clocked` has the netlist, and keeps what later windows need not make again.
pub fn simulate_from<O: Sink>(
    alloc: Global,
    clocked: &mut ClockedNetlist<'_>,
    start: &Row3,
    first: u64,
    vectors: &Vectors,
    out: &mut O,
) -> Result<Row3, SimFault>
    requires width { vectors.now.width ≡ length (columns clocked.old) }
    requires start { length start.now ≡ length clocked.old.registers }
    requires few { first + length vectors.now.rows < 2 ^ 64 }

    ensures ok { IfOk result (AppendsLines clocked.old first start.now vectors.now.rows
        (O.written out.old) (O.written out.new)) }
    ensures same_circuit { clocked.new ≡ clocked.old }

    // After a fault.
    ensures part { result ≡ Err SimFault.Write
        → AppendsLinesPart clocked.old first start.now vectors.now.rows
        (O.written out.old) (O.written out.new) }
    ensures same { result ≡ Err SimFault.Memory → O.written out.new ≡ O.written out.old }

    // When a write failed.
    ensures same_faults { result ≢ Err SimFault.Write → O.faults out.new ≡ O.faults out.old }
    ensures never_falls { O.faults out.old ≤ O.faults out.new }
    ensures cause { result ≡ Err SimFault.Write → Rose (O.faults out.old) (O.faults out.new) }
{
    let Ok(words) = words_for(alloc, clocked, start, vectors) else {
        return Err(SimFault::Memory);
    };
    let netlist = clocked.netlist;
    if let Some(mut words) = words {
        let written = write_words(netlist, first, vectors, &mut words, out);
        clocked.slices = Some(words.slices);
        return match written {
            Ok(()) => Ok(words.state),
            Err(_) => Err(SimFault::Write),
        };
    }
    let Ok(mut rows) = rows_for(alloc, netlist) else {
        return Err(SimFault::Memory);
    };
    rows.state.copy_from(start);
    match write_turns(netlist, first, vectors, &mut rows, out) {
        Ok(()) => Ok(rows.state),
        Err(_) => Err(SimFault::Write),
    }
}

// The rows that a run works on.
#[derive(Drop)]
struct RunRows {
    state: Row3,
    nets: Row3,
    outputs: Row3,
}

fn rows_for(alloc: Global, netlist: &Netlist) -> Result<RunRows, OutOfMemory>
    ensures state { IfOk result (λ rows. length rows.state ≡ length netlist.now.registers) }
    ensures nets { IfOk result (λ rows. length rows.nets ≡ length netlist.now.nets) }
    ensures outputs { IfOk result (λ rows. length rows.outputs ≡ length netlist.now.outputs) }
{
    let design = netlist.design();
    Ok(RunRows {
        state: Row3::with_len(alloc, design.registers().len())?,
        nets: Row3::with_len(alloc, design.nets().len())?,
        outputs: Row3::with_len(alloc, design.outputs().len())?,
    })
}

// Writes the lines of these turns by way of a buffer, and leaves the row after them in `rows`.
fn write_turns<O: Sink>(
    netlist: &Netlist,
    first: u64,
    vectors: &Vectors,
    rows: &mut RunRows,
    out: &mut O,
) -> Result<(), WriteFault>
    requires width { vectors.now.width ≡ length (columns netlist.now) }
    requires state { length rows.old.state ≡ length netlist.now.registers }
    requires nets { length rows.old.nets ≡ length netlist.now.nets }
    requires outputs { length rows.old.outputs ≡ length netlist.now.outputs }
    requires few { first + length vectors.now.rows < 2 ^ 64 }
    ensures { WritesLines result netlist.now first rows.old.state vectors.now.rows rows.new.state
        (O.written out.old) (O.written out.new) (O.faults out.old) (O.faults out.new) }
{
    let mut pen = Buffered::new(out);
    put_turns(netlist, first, vectors, rows, &mut pen);
    pen.finish()
}

// Writes the lines of these turns, and leaves the row after them in `rows`.
fn put_turns<P: Pen>(
    netlist: &Netlist,
    first: u64,
    vectors: &Vectors,
    rows: &mut RunRows,
    pen: &mut P,
)
    requires width { vectors.now.width ≡ length (columns netlist.now) }
    requires state { length rows.old.state ≡ length netlist.now.registers }
    requires nets { length rows.old.nets ≡ length netlist.now.nets }
    requires outputs { length rows.old.outputs ≡ length netlist.now.outputs }
    requires few { first + length vectors.now.rows < 2 ^ 64 }
    ensures { PutsLines (P.writing pen.old) (P.writing pen.new) netlist.now first
        rows.old.state vectors.now.rows rows.new.state }
{
    let design = netlist.design();
    let registers = design.registers();
    let outputs = design.outputs();
    for k in 0..vectors.count() {
        settle(netlist, &rows.state, vectors.row(k), &mut rows.nets);
        pick_values(&rows.nets, outputs, &mut rows.outputs);
        put_trace_line(first + k as u64, &rows.outputs, &rows.state, pen);
        pick_data(&rows.nets, registers, &mut rows.state);
    }
}
