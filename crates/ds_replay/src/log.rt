//! The call of this crate: the lines of a log are read one by one, and each event fires if it may.
ghost use Rattle.std.specs.Prelude.{◌≡◌, length};
ghost use Rattle.ds_design.specs.Circuit.{columns};
ghost use Rattle.ds_replay.specs.Replayed.{Replays};

use crate::ReplayRefusal;
use crate::start::start;
use crate::step::step;
use ds_design::Vectors;
use ds_fire::State;
use ds_latch::Plan;
use ds_lines::{Lines, on_line};
use ds_rows::{Lookup, texts_of};
use std::alloc::Global;

/// The state after the firings of a log, each event at most once a vector. Reading begins behind
/// the first line that is the one word `firings`, at the first line where there is none. Refused
/// with the first faulty line; on one line in the order of `ReplayKind`.
pub fn replay<'a>(
    alloc: Global,
    plan: &'a Plan<'a>,
    vectors: &'a Vectors,
    lines: &Lines<'_>,
) -> Result<State<'a>, ReplayRefusal>
    requires { vectors.now.width ≡ length (columns plan.now.split.circuit) }
    ensures { Replays plan.now vectors.now.rows lines.now result }
{
    let texts = texts_of(alloc, plan.graph().events())?;
    let events = Lookup::of(alloc, texts.as_slice())?;
    let mut state = State::new(alloc, plan, vectors)?;
    for i in start(lines)..lines.count() {
        match step(alloc, lines.line(i), &events, &mut state) {
            Ok(()) => {}
            Err(why) => return Err(on_line(lines.number(i), why)),
        }
    }
    // Called for the fact that some legal list leads here.
    state.reached();
    Ok(state)
}
