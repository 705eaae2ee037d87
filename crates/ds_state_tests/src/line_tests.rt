//! The line of a firing, without and with its time, to a sink.
ghost use Rattle.std.specs.Prelude.{◌<◌, length};

use ds_base::{EventId, Mode};
use ds_latch::Plan;
use ds_outside::{MemorySink, OnSink, Pen};
use ds_rows::firing_line;
use ds_stage::{Stop, no_groups, own_plan, put_time, read_netlist, split_groups};
use ds_trial::{TOGGLE, files};
use std::alloc::Global;

// A firing: its event, its turn and, if the line has it, its time.
#[derive(Clone, Copy)]
struct TimedFiring {
    event: EventId,
    turn: u32,
    time: Option<u128>,
}

// Writes the line of a firing, and says whether no write failed.
fn is_written(plan: &Plan<'_>, firing: TimedFiring, sink: &mut MemorySink) -> bool
    requires { firing.event < length plan.now.graph.events }
{
    let Some(time) = firing.time else {
        return firing_line(plan, firing.event, u64::from(firing.turn), sink).is_ok();
    };
    let mut pen = OnSink::new(sink);
    put_time(plan, firing.event, firing.turn, time, &mut pen);
    pen.finish().is_ok()
}

// Whether the line of a firing of a toggle is this text.
fn is_line(alloc: Global, firing: TimedFiring, text: &str) -> Result<bool, Stop> {
    let mut files = files(alloc, &[("n", TOGGLE)])?;
    let netlist = read_netlist(alloc, &mut files, "n")?;
    let latches = split_groups(alloc, "n", &netlist, Mode::Each, &no_groups(alloc))?;
    let Ok(plan) = own_plan(alloc, latches) else {
        return Err(Stop::Memory);
    };
    if firing.event.index() >= plan.graph().events().len() {
        return Ok(false);
    }
    let mut sink = MemorySink::with_room(alloc, 100)?;
    Ok(is_written(&plan, firing, &mut sink) && sink.bytes() == text.as_bytes())
}

// The nodes are IN, OUT, M0 and S0, and each opens and closes.
#[test]
fn the_line_of_a_firing_has_the_event_and_the_turn(rt: HostRuntime) {
    for (event, turn, text) in [
        (0, 1, "IN+ 1\n"),
        (3, 20, "OUT- 20\n"),
        (6, 65_536, "S0+ 65536\n"),
    ] {
        let event = EventId::new(event);
        let time = None;
        let firing = TimedFiring { event, turn, time };
        let is = is_line(rt.alloc(), firing, text);
        assert!(rt; is.is_ok_and(|is| is), "{text}");
    }
}

#[test]
fn times_past_64_bits_are_written_whole(rt: HostRuntime) {
    for (time, text) in [
        (0, "S0+ 7 0\n"),
        (18_446_744_073_709_551_615, "S0+ 7 18446744073709551615\n"),
        (18_446_744_073_709_551_616, "S0+ 7 18446744073709551616\n"),
        (18_446_744_073_709_551_617, "S0+ 7 18446744073709551617\n"),
        (18_452_373_152_335_659_105, "S0+ 7 18452373152335659105\n"),
        (u128::MAX, "S0+ 7 340282366920938463463374607431768211455\n"),
    ] {
        let event = EventId::new(6);
        let time = Some(time);
        let turn = 7;
        let firing = TimedFiring { event, turn, time };
        let is = is_line(rt.alloc(), firing, text);
        assert!(rt; is.is_ok_and(|is| is), "{text}");
    }
}
