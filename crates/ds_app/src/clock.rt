//! `clock`: the clocked run of a netlist.
ghost use Rattle.std.specs.Prelude.{◌≡◌, IfOk};
ghost use Rattle.ds_design.specs.Accepted.{IsAccepted};
ghost use Rattle.ds_design.specs.Circuit.{initial_row};
ghost use Rattle.ds_design.specs.InRange.{IsInRange};
ghost use Rattle.ds_stage.specs.Ends.{Ends, RoseIn, UnlessUnread, UnlessUnwritten, output_between};
ghost use Rattle.ds_stage.specs.Stage.{then_stage};
ghost use Rattle.ds_stage.specs.Stages.{netlist_stage};
ghost use Rattle.ds_app.specs.JobStages.{clock_stage};

use crate::run::stop_of;
use ds_base::{OutOfMemory, Row3};
use ds_clocked::{ClockedNetlist, simulate_from};
use ds_cmd::ClockJob;
use ds_design::Netlist;
use ds_outside::{Files, Sink};
use ds_rows::end_line;
use ds_settle::set_initial;
use ds_stage::{Stop, WINDOW, most_vectors, read_netlist, read_window};
use ds_stream::VectorReader;
use std::alloc::Global;

/// Reads a netlist, clocks it on the vectors, and writes the trace as it reads.
#[tactic(none)]
pub fn clock<F: Files, O: Sink>(
    alloc: Global,
    job: &ClockJob,
    files: &mut F,
    out: &mut O,
) -> Result<(), Stop>
    ensures value { Ends (then_stage (netlist_stage (F.held files.old) job.now.net)
        (clock_stage (F.held files.old) job.now.vec))
        (RoseIn (F.faults files.old) (F.faults files.new))
        (output_between O.written O.faults out.old out.new) result }

    ensures same_held { F.held files.new ≡ F.held files.old }
    ensures same_reads { UnlessUnread result (F.faults files.new ≡ F.faults files.old) }
    ensures same_writes { UnlessUnwritten result (O.faults out.new ≡ O.faults out.old) }
{
    let vec = job.vec.as_str();
    let net = job.net.as_str();
    let netlist = read_netlist(alloc, files, net)?;
    write_clocked(alloc, &netlist, vec, files, out)
}

// Writes the trace of the clocked run, window by window, each begun with the registers behind the
// one before.
fn write_clocked<F: Files, O: Sink>(
    alloc: Global,
    netlist: &Netlist,
    vec: &str,
    files: &mut F,
    out: &mut O,
) -> Result<(), Stop>
    ensures value { Ends (clock_stage (F.held files.old) vec.now netlist.now)
        (RoseIn (F.faults files.old) (F.faults files.new))
        (output_between O.written O.faults out.old out.new) result }

    ensures same_held { F.held files.new ≡ F.held files.old }
    ensures same_reads { UnlessUnread result (F.faults files.new ≡ F.faults files.old) }
    ensures same_writes { UnlessUnwritten result (O.faults out.new ≡ O.faults out.old) }
{
    let mut state = first_row(alloc, netlist)?;
    let mut clocked = ClockedNetlist::new(netlist);
    let mut reader = VectorReader::new(netlist.columns().len(), most_vectors(false));
    let mut first = 0;
    let mut more = true;
    'windows: while more {
        let (behind, vectors) = read_window(alloc, files, vec, reader)?;
        let turns = vectors.count();
        match simulate_from(alloc, &mut clocked, &state, first, &vectors, out) {
            Ok(row) => state = row,
            Err(fault) => return Err(stop_of(fault)),
        }
        reader = behind;
        first = reader.given();
        more = turns == WINDOW;
    }
    match end_line(&state, out) {
        Ok(()) => Ok(()),
        Err(_) => Err(Stop::Unwritten),
    }
}

// The registers before the first turn.
fn first_row(alloc: Global, netlist: &Netlist) -> Result<Row3, OutOfMemory>
    ensures row { IfOk result (λ row. row ≡ initial_row netlist.now) }
    ensures in_range { IsInRange netlist.now }
    ensures accepted { IsAccepted netlist.now }
{
    let registers = netlist.design().registers();
    let mut row = Row3::with_len(alloc, registers.len())?;
    set_initial(registers, &mut row);
    Ok(row)
}
