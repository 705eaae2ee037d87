//! A step of the copies that are being taken.
ghost use Rattle.std.specs.Prelude.{MatchResult};
ghost use Rattle.ds_base.specs.Refusal.{RefusesAs};
ghost use Rattle.ds_flat.specs.Run.{run_rest, HaveParts, IsRestKept};
ghost use Rattle.ds_flat.specs.Turn.{GivesTurn, LeavesCopies};

use crate::design_draft::DesignDraft;
use crate::fault::FlatRefusal;
use crate::library::Library;
use crate::stack::Stack;
use crate::step::{State, StepOutcome, take};
use std::alloc::Global;

/// The next command is taken, or a copy without commands is left.
pub fn advance<'b, 'm>(
    alloc: Global,
    library: &Library<'b, 'm>,
    state: State<'b, 'm>,
) -> Result<StepOutcome<'b, 'm>, FlatRefusal>
    requires kept { IsRestKept library.now state }
    requires parts { HaveParts library.now }
    ensures { MatchResult result (λ turn. GivesTurn library.now turn state.entry)
        (λ e. RefusesAs e (run_rest library.now state.entry)) }
{
    let State {
        top,
        below,
        copies,
        draft,
    } = state;
    match top.commands.split_first() {
        Some((command, rest)) => {
            let behind = State {
                top: top.with(rest),
                below,
                copies,
                draft,
            };
            match take(alloc, library, behind, command.get()) {
                Ok(next) => Ok(StepOutcome::Next(next)),
                Err(refusal) => Err(refusal),
            }
        }
        None => Ok(left(below, copies, draft)),
    }
}

// A copy without commands is left.
fn left<'b, 'm>(below: Stack<'b, 'm>, copies: u32, draft: DesignDraft<'m>) -> StepOutcome<'b, 'm>
    ensures { LeavesCopies result below.entry copies draft.entry }
{
    match below.popped() {
        Some((top, below)) => StepOutcome::Next(State {
            top,
            below,
            copies,
            draft,
        }),
        None => StepOutcome::Done(draft),
    }
}
