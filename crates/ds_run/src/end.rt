//! The end of a run that was written window by window.
ghost use Rattle.std.specs.Prelude.{◌≡◌, ℕ, List};
ghost use Rattle.ds_outside.specs.Pen.{Puts};
ghost use Rattle.ds_run.specs.WindowedText.{IsKnownLog, IsLogPart, IsSomeLog, WritesEnd};

use crate::log::Log;
use ds_base::Row3;
use ds_latch::Plan;
use ds_outside::{Buffered, Pen, Sink, WriteFault};
use ds_rows::put_end_line;

/// Writes the line `end` with the registers after the last turn, and behind it the line `firings`
/// and the firings of a log, where one was kept. It takes no memory: the log has what its firings
/// are counted by.
pub fn end_run<O: Sink>(
    plan: &Plan<'_>,
    registers: &Row3,
    log: &mut Option<Log>,
    out: &mut O,
) -> Result<(), WriteFault>
    requires log { IsSomeLog plan.now.graph log.old }
    ensures writes { WritesEnd result plan.now.graph log.old registers.now
        (O.written out.old) (O.written out.new) (O.faults out.old) (O.faults out.new) }
    ensures same_log { log.new ≡ log.old }
{
    let mut pen = Buffered::new(out);
    put_end_line(registers, &mut pen);
    put_log(plan, log, &mut pen);
    pen.finish()
}

// Writes the line `firings` and the log, where one was kept.
pub(crate) fn put_log<P: Pen>(plan: &Plan<'_>, log: &mut Option<Log>, pen: &mut P)
    requires log { IsKnownLog plan.now.graph log.old }
    ensures writes { (text : List ℕ) × IsLogPart plan.now.graph log.old text
        × Puts (P.writing pen.old) (P.writing pen.new) text }
    ensures same_log { log.new ≡ log.old }
{
    match log {
        Some(log) => log.write(plan, pen),
        None => {}
    }
}
