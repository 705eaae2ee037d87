//! The first fault of a list of lines.
ghost use Rattle.std.specs.Prelude.{◌≡◌, ◌<◌, None, [], length, MatchResult};
ghost use Rattle.ds_base.specs.Refusal.{TellsFault};
ghost use Rattle.ds_lines.specs.First.{fault_or};
ghost use Rattle.ds_lines.specs.Line.{line_or_none};
ghost use Rattle.ds_blif.specs.State.{State as Before, first_fault, fault_in, after};

use crate::fault::{BlifKind, BlifRefusal};
use crate::state::{State, initial};
use crate::step::step;
use ds_base::Refusal;
use ds_lines::{At, Lines, on_line};
use std::alloc::Global;

// Goes on to the state behind a line, or tells the fault of the line.
fn check_line<'a>(
    alloc: Global,
    state: &mut State<'a>,
    lines: &Lines<'a>,
    i: usize,
) -> Result<(), BlifRefusal>
    requires { i < length lines.now }
    ensures { MatchResult result
        (λ _. (fault_in state.old (line_or_none lines.now i).words ≡ None) × (state.new ≡ after
        (line_or_none lines.now i).words state.old))
        (λ e. TellsFault e (fault_or
        (fault_in state.old (line_or_none lines.now i).words)
        (line_or_none lines.now i).number None)) }
{
    match step(alloc, state, lines.line(i)) {
        Ok(()) => Ok(()),
        Err(why) => Err(on_line(lines.number(i), why)),
    }
}

/// Whether the lines are free of faults.
pub fn check<'a>(alloc: Global, lines: &Lines<'a>) -> Result<(), BlifRefusal>
    ensures { MatchResult result (λ _. first_fault [] lines.now ≡ None) (λ e. TellsFault e
        (first_fault [] lines.now)) }
{
    let mut state: State<'a> = initial(alloc);
    for i in 0..lines.count() {
        check_line(alloc, &mut state, lines, i)?;
    }
    if state.models.len() == 0 {
        Err(Refusal::Fault(At {
            line: 1,
            kind: BlifKind::NoModel,
        }))
    } else {
        Ok(())
    }
}
