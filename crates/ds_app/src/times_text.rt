//! The text of a timed run, written as it goes on turn by turn.
ghost use Rattle.std.specs.Prelude.{◌≡◌, ◌<◌, ◌≤◌, ◌-◌, ◌^◌, ℕ, All, length};
ghost use Rattle.std.specs.List.{flat_map};
ghost use Rattle.ds_outside.specs.Pen.{Puts};
ghost use Rattle.ds_outside.specs.Writes.{Writes};
ghost use Rattle.ds_times.specs.Order.{firings_in};
ghost use Rattle.ds_times.specs.Schedule.{IsSchedule};
ghost use Rattle.ds_stage.specs.TimesStage.{time_line, time_lines};

use ds_base::EventId;
use ds_latch::Plan;
use ds_outside::{Buffered, Pen, Sink, WriteFault};
use ds_stage::put_time;
use ds_times::Schedule;

/// Writes the times of so many turns by way of a buffer, in each turn those of the events in this
/// order. Takes no memory.
pub(crate) fn write_turns<O: Sink>(
    plan: &Plan<'_>,
    order: &[EventId],
    turns: u32,
    schedule: &mut Schedule,
    out: &mut O,
) -> Result<(), WriteFault>
    requires events { schedule.old.events ≡ length plan.now.graph.events }
    requires order { All (λ v. v < length plan.now.graph.events) order.now }
    requires begun { schedule.old.turn ≡ 0 }
    requires few { turns < 2 ^ 32 - 1 }
    ensures { (time : ℕ → ℕ → ℕ) → IsSchedule schedule.old.arcs turns time
        → Writes result (O.written out.old) (O.written out.new) (O.faults out.old)
        (O.faults out.new) (time_lines plan.now.graph time order.now turns) }
{
    let mut pen = Buffered::new(out);
    put_turns(plan, order, turns, schedule, &mut pen);
    pen.finish()
}

// Writes the lines of all turns.
fn put_turns<P: Pen>(
    plan: &Plan<'_>,
    order: &[EventId],
    turns: u32,
    schedule: &mut Schedule,
    pen: &mut P,
)
    requires events { schedule.old.events ≡ length plan.now.graph.events }
    requires order { All (λ v. v < length plan.now.graph.events) order.now }
    requires begun { schedule.old.turn ≡ 0 }
    requires few { turns < 2 ^ 32 - 1 }
    ensures same { (P.writing pen.new).name ≡ (P.writing pen.old).name }
    ensures lines { (time : ℕ → ℕ → ℕ) → IsSchedule schedule.old.arcs turns time
        → Puts (P.writing pen.old) (P.writing pen.new)
        (time_lines plan.now.graph time order.now turns) }
{
    for k in 0..turns {
        schedule.next();
        put_turn(plan, order, k + 1, &*schedule, pen);
    }
}

// Writes the lines of the turn that is begun.
fn put_turn<P: Pen>(plan: &Plan<'_>, order: &[EventId], turn: u32, schedule: &Schedule, pen: &mut P)
    requires events { schedule.now.events ≡ length plan.now.graph.events }
    requires order { All (λ v. v < length plan.now.graph.events) order.now }
    requires begun { (0 < turn) × (schedule.now.turn ≡ turn) }
    ensures same { (P.writing pen.new).name ≡ (P.writing pen.old).name }
    ensures lines { (turns : ℕ) (time : ℕ → ℕ → ℕ) → turn ≤ turns
        → IsSchedule schedule.now.arcs turns time → Puts (P.writing pen.old) (P.writing pen.new)
        (flat_map (time_line plan.now.graph time) (firings_in order.now turn)) }
{
    for i in 0..order.len() {
        let event = order[i];
        let time = schedule.time(event);
        put_time(plan, event, turn, time, pen);
    }
}
