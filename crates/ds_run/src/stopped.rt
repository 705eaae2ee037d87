//! A plan run until it is stopped, and what its registers have stored by then.
ghost use Rattle.std.specs.Prelude.{◌≡◌, ◌≢◌, ◌<◌, ◌≤◌, Ok, Err, OnOk, length};
ghost use Rattle.std.specs.List.{flat_map, range_with_len};
ghost use Rattle.ds_design.specs.Circuit.{columns};
ghost use Rattle.ds_outside.specs.Fault.{Rose};
ghost use Rattle.ds_outside.specs.Pen.{Puts};
ghost use Rattle.ds_rows.specs.Homes.{AreHomes};
ghost use Rattle.ds_run.specs.WindowedText.{IsKnownLog};
ghost use Rattle.ds_run.specs.Left.{EndsLeft, HasWords, WritesLeft, home_line};
ghost use Rattle.ds_run.specs.Stopped.{AppendsStopped, AppendsStoppedPart};

use crate::WorkerSettings;
use crate::end::put_log;
use crate::halt::Halt;
use crate::left::Left;
use crate::stored::put_stored_values;
use ds_clocked::SimFault;
use ds_latch::{Latches, Node};
use ds_outside::{Buffered, Gate, Pen, Sink, WriteFault};
use ds_rows::{put_fired, put_register_name};
use std::thread::Threads;

/// Runs a plan by these workers until it is to stop, and writes for each register what it has
/// stored by then and how many events have fired; behind them the line `firings` and the log where
/// one is wanted. After `Memory` nothing is written, after `Write` a first part.
pub fn write_stopped<R: AllocGlobal + Threads + Sync, G: Gate, O: Sink>(
    halt: &Halt<'_, '_>,
    workers: &WorkerSettings<'_, R, G>,
    log: bool,
    out: &mut O,
) -> Result<(), SimFault>
    requires width { halt.now.vectors.now.width
        ≡ length (columns halt.now.plan.now.split.circuit) }
    requires jobs { (0 < workers.now.jobs) × (workers.now.jobs ≤ 64) }

    ensures ok { OnOk result (AppendsStopped log halt.now.stop workers.now.jobs halt.now.plan.now
        halt.now.vectors.now.rows (O.written out.old) (O.written out.new)) }

    // After a fault.
    ensures part { result ≡ Err SimFault.Write → AppendsStoppedPart log halt.now.stop
        workers.now.jobs halt.now.plan.now halt.now.vectors.now.rows
        (O.written out.old) (O.written out.new) }
    ensures same { result ≡ Err SimFault.Memory → O.written out.new ≡ O.written out.old }

    // When a write failed.
    ensures same_faults { result ≢ Err SimFault.Write → O.faults out.new ≡ O.faults out.old }
    ensures never_falls { O.faults out.old ≤ O.faults out.new }
    ensures cause { result ≡ Err SimFault.Write → Rose (O.faults out.old) (O.faults out.new) }
{
    let Ok(left) = Left::of(halt, workers, log) else {
        return Err(SimFault::Memory);
    };
    write_left(halt, left, out)
}

// Writes what was left.
fn write_left<O: Sink>(halt: &Halt<'_, '_>, left: Left, out: &mut O) -> Result<(), SimFault>
    requires words { HasWords halt.now.plan.now.split left.fired }
    requires homes { AreHomes halt.now.plan.now.split left.homes.items }
    requires log { IsKnownLog halt.now.plan.now.graph left.log }
    ensures { EndsLeft halt.now.plan.now halt.now.vectors.now.rows left result
        (O.written out.old) (O.written out.new) (O.faults out.old) (O.faults out.new) }
{
    match write_state(halt, left, out) {
        Ok(()) => Ok(()),
        Err(_) => Err(SimFault::Write),
    }
}

// Writes it by way of a buffer.
fn write_state<O: Sink>(halt: &Halt<'_, '_>, left: Left, out: &mut O) -> Result<(), WriteFault>
    requires words { HasWords halt.now.plan.now.split left.fired }
    requires homes { AreHomes halt.now.plan.now.split left.homes.items }
    requires log { IsKnownLog halt.now.plan.now.graph left.log }
    ensures { WritesLeft result halt.now.plan.now halt.now.vectors.now.rows left
        (O.written out.old) (O.written out.new) (O.faults out.old) (O.faults out.new) }
{
    let mut left = left;
    let most = halt.plan.most_firings(halt.vectors);
    let mut pen = Buffered::new(out);
    put_registers(halt.plan.latches(), &left, &mut pen);
    put_fired(left.fired.fired(), most, &mut pen);
    put_log(halt.plan, &mut left.log, &mut pen);
    pen.finish()
}

// Writes the lines of all registers.
fn put_registers<P: Pen>(latches: &Latches<'_>, left: &Left, pen: &mut P)
    requires words { HasWords latches.now left.now.fired }
    requires homes { AreHomes latches.now left.now.homes.items }
    ensures { Puts (P.writing pen.old) (P.writing pen.new)
        (flat_map (home_line latches.now left.now.fired left.now.homes.items)
        (range_with_len 0 (length left.now.homes.items))) }
{
    for r in 0..left.homes.len() {
        put_register(latches, left, r, pen);
    }
}

// Writes the line of a register.
fn put_register<P: Pen>(latches: &Latches<'_>, left: &Left, r: usize, pen: &mut P)
    requires words { HasWords latches.now left.now.fired }
    requires homes { AreHomes latches.now left.now.homes.items }
    requires inside { r < length left.now.homes.items }
    ensures { Puts (P.writing pen.old) (P.writing pen.new)
        (home_line latches.now left.now.fired left.now.homes.items r) }
{
    // The edges are read for the fact that nodes are few, so that a number of one fits.
    let _edges = latches.edges();
    let home = left.homes[r];
    let slave = Node::Slave(home.cluster as u32).latch();
    put_register_name(latches.netlist().design(), r, pen);
    pen.put(b": ");
    put_stored_values(&left.fired, slave, home.place, pen);
    pen.put(b"\n");
}
