//! The report on a netlist.
ghost use Rattle.std.specs.Prelude.{◌≡◌, ℕ};
ghost use Rattle.ds_design.specs.Levels.{IsDepth};
ghost use Rattle.ds_outside.specs.Pen.{Puts};
ghost use Rattle.ds_outside.specs.Writes.{Writes};
ghost use Rattle.ds_stage.specs.Ends.{Ends, Never, UnlessUnwritten, output_between};
ghost use Rattle.ds_stage.specs.Report.{count_line, report_text};
ghost use Rattle.ds_stage.specs.Stages.{report_stage};

use crate::stop::Stop;
use ds_design::Netlist;
use ds_outside::{OnSink, Pen, Sink, WriteFault};
use itoa::Buffer;

/// Writes the nets other than the clock, the tables, the registers and the levels of a netlist.
pub fn write_report<O: Sink>(netlist: &Netlist, out: &mut O) -> Result<(), Stop>
    ensures value { Ends (report_stage netlist.now) Never
        (output_between O.written O.faults out.old out.new) result }

    ensures same_writes { UnlessUnwritten result (O.faults out.new ≡ O.faults out.old) }
{
    match write_counts(netlist, out) {
        Ok(()) => Ok(()),
        Err(_) => Err(Stop::Unwritten),
    }
}

// The four lines.
fn write_counts<O: Sink>(netlist: &Netlist, out: &mut O) -> Result<(), WriteFault>
    ensures { (depth : ℕ) × IsDepth netlist.now depth
        × Writes result (O.written out.old) (O.written out.new)
        (O.faults out.old) (O.faults out.new) (report_text netlist.now depth) }
{
    let mut pen = OnSink::new(out);
    put_count(b"nets", netlist.nets(), &mut pen);
    put_count(b"tables", netlist.tables(), &mut pen);
    put_count(b"registers", netlist.registers(), &mut pen);
    put_count(b"levels", netlist.levels(), &mut pen);
    pen.finish()
}

/// A line with a name and a number.
pub fn put_count<P: Pen>(name: &[u8], count: u64, pen: &mut P)
    ensures { Puts (P.writing pen.old) (P.writing pen.new) (count_line name.now count) }
{
    let mut buffer = Buffer::new();
    pen.put(name);
    pen.put(b" ");
    pen.put(buffer.format(count).as_bytes());
    pen.put(b"\n");
}
