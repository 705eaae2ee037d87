//! The lines of a timed run.
ghost use Rattle.std.specs.Prelude.{◌<◌, length};
ghost use Rattle.ds_outside.specs.Pen.{Puts};
ghost use Rattle.ds_stage.specs.TimesStage.{time_line};

use ds_base::EventId;
use ds_latch::{Plan, event_text};
use ds_outside::Pen;
use itoa::Buffer;

/// Writes the line of a firing by a pen: the event, how often it has fired with this firing, and
/// the time of this firing.
pub fn put_time<P: Pen>(plan: &Plan<'_>, event: EventId, turn: u32, time: u128, pen: &mut P)
    requires { event < length plan.now.graph.events }
    ensures { Puts (P.writing pen.old) (P.writing pen.new)
        (time_line plan.now.graph (λ _ _. time) (record { event = event; turn = turn })) }
{
    let mut of = Buffer::new();
    let mut buffer = Buffer::new();
    let text = event_text(plan, event);
    pen.put(text.name);
    pen.put(text.sign);
    pen.put(b" ");
    pen.put(of.format(turn).as_bytes());
    pen.put(b" ");
    pen.put(buffer.format(time).as_bytes());
    pen.put(b"\n");
}
