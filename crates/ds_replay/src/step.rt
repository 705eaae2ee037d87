//! One line of a log.
ghost use Rattle.std.specs.Prelude.{◌≡◌, map, IfOk};
ghost use Rattle.ds_fire.specs.Snapshot.{graph_of};
ghost use Rattle.ds_rows.specs.Texts.{event_texts};
ghost use Rattle.ds_replay.specs.Step.{StepsTo};
ghost use Rattle.ds_replay.specs.declared.fault.ReplayKind.TheVariants.{UnknownEvent};

use crate::ReplayKind;
use crate::fire::fire;
use crate::word::turn_of;
use ds_base::Refusal;
use ds_fire::State;
use ds_lines::{name, word};
use ds_rows::Lookup;
use std::alloc::{AllocError, Global};

/// Fires the event of a line.
pub fn step(
    alloc: Global,
    words: &[&[u8]],
    events: &Lookup<'_>,
    state: &mut State<'_>,
) -> Result<(), Refusal<ReplayKind>>
    requires { events.now ≡ event_texts (graph_of state.old) }
    ensures { StepsTo state.old (map (λ w. w.now) words.now) state.new result }
{
    let Some(turn) = turn_of(words) else {
        return Err(Refusal::Fault(ReplayKind::BadWord));
    };
    let named = word(words, 0);
    let Some(event) = events.find(named) else {
        return Err(Refusal::Fault(unknown(alloc, named)?));
    };
    match fire(turn, event, state) {
        Ok(()) => Ok(()),
        Err(kind) => Err(Refusal::Fault(kind)),
    }
}

// A word that is no event.
fn unknown(alloc: Global, word: &[u8]) -> Result<ReplayKind, AllocError>
    ensures { IfOk result (λ kind. kind ≡ UnknownEvent word.now) }
{
    Ok(ReplayKind::UnknownEvent(name(alloc, word)?))
}
