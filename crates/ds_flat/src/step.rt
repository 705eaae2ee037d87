//! The commands of the copies, one after the other.
ghost use Rattle.std.specs.Prelude.{◌≡◌, ◌≤◌, ℕ, Ok, IfOk, MatchResult, option_map};
ghost use Rattle.ds_base.specs.Refusal.{RefusesAs};
ghost use Rattle.ds_design.specs.Source.{IsPart, IsUseText};
ghost use Rattle.ds_flat.specs.Command.{with_part};
ghost use Rattle.ds_flat.specs.Copies.{flat_within, use_in as use_of_part};
ghost use Rattle.ds_flat.specs.Run.{run_rest, after_take, HaveParts, IsRestKept};
ghost use Rattle.ds_flat.specs.Turn.{most_turns};
ghost use Rattle.ds_flat.specs.Use.{after_use};

use crate::design_draft::DesignDraft;
use crate::fault::FlatRefusal;
use crate::frame::Open;
use crate::library::Library;
use crate::open::{checked, open, stopped, too_many};
use crate::scope::Scope;
use crate::stack::Stack;
use ds_base::Refusal;
use ds_design::{Command, Part, UseText};
use std::alloc::Global;
use std::marker::Model;

/// The innermost copy, those that wait for it, the number of the last copy, and the design so far.
#[derive(Drop)]
pub struct State<'b, 'm> {
    pub top: Open<'b, 'm>,
    pub below: Stack<'b, 'm>,
    pub copies: u32,
    pub draft: DesignDraft<'m>,
}

impl<'b, 'm> Model for State<'b, 'm> {
    ghost use Rattle.std.specs.Prelude.{◌∷◌};
    ghost use Rattle.ds_flat.specs.Stack.{frame_on, path_of};
    ghost use Rattle.ds_flat.specs.Run.{Rest};

    ghost Value = { Rest };

    ghost view = { λ s. record {
      frames = frame_on s.top (path_of s.below.frames) ∷ s.below.frames;
      places = s.top.model ∷ s.below.places;
      models = s.below.models;
      flat = record { copies = s.copies; design = s.draft };
    } };
}

/// What a step gives: what is left to take, or the design.
#[derive(Drop)]
pub enum StepOutcome<'b, 'm> {
    Next(State<'b, 'm>),
    Done(DesignDraft<'m>),
}

fn use_in<'p, 'm>(part: &'p Part<'m>) -> Option<&'p UseText<'m>>
    ensures { option_map (λ u. u.now) result ≡ use_of_part part.now }
{
    match part {
        Part::Subckt(call) => Some(call),
        Part::Inputs(_) | Part::Outputs(_) | Part::Clock(_) | Part::Table(_) | Part::Latch(_) =>
            None,
    }
}

// A command other than a use is taken. After a refusal the design holds a part of it.
fn take_part<'m>(
    alloc: Global,
    scope: &Scope<'m>,
    draft: &mut DesignDraft<'m>,
    command: &'m Command<'m>,
) -> Result<(), FlatRefusal>
    requires { IsPart command.now.part }
    ensures { MatchResult result
        (λ _. (copies : ℕ) → flat_within copies command.entry.now.line
        (with_part scope.now command.entry.now.line command.entry.now.part draft.old)
        ≡ Ok (record { copies = copies; design = draft.new }))
        (λ e. (copies : ℕ) → RefusesAs e (flat_within copies command.entry.now.line
        (with_part scope.now command.entry.now.line command.entry.now.part draft.old))) }
{
    match draft.add(alloc, scope, command.line, &command.part) {
        Ok(()) => match draft.passed_limit() {
            None => Ok(()),
            Some(limit) => Err(too_many(command.line, limit)),
        },
        Err(stop) => Err(stopped(command.line, stop)),
    }
}

// A use puts its copy on top.
fn take_use<'b, 'm>(
    alloc: Global,
    library: &Library<'b, 'm>,
    state: State<'b, 'm>,
    line: u64,
    call: &'m UseText<'m>,
) -> Result<State<'b, 'm>, FlatRefusal>
    requires kept { IsRestKept library.now state }
    requires parts { HaveParts library.now }
    requires call { IsUseText call.now }
    ensures kept { IfOk result (λ s. IsRestKept library.now s) }
    ensures less { IfOk result
        (λ s. most_turns library.now s ≤ most_turns library.now state.entry) }
    ensures value { MatchResult result
        (λ s. run_rest library.now s
        ≡ after_use library.now state.entry.frames state.entry.flat line call.entry.now)
        (λ e. RefusesAs e
        (after_use library.now state.entry.frames state.entry.flat line call.entry.now)) }
{
    let State {
        top,
        below,
        copies,
        mut draft,
    } = state;
    match checked(alloc, library, &top, &below, copies, line, call) {
        Err(refusal) => Err(refusal),
        Ok(found) => match open(alloc, &top, found, copies, &mut draft, line, call) {
            Err(refusal) => Err(refusal),
            Ok(next) => match below.pushed(top) {
                Err(_) => Err(Refusal::Memory),
                Ok(below) => Ok(State {
                    top: next,
                    below,
                    copies: copies + 1,
                    draft,
                }),
            },
        },
    }
}

/// A command of the innermost copy is taken: a use puts its copy on top.
pub fn take<'b, 'm>(
    alloc: Global,
    library: &Library<'b, 'm>,
    state: State<'b, 'm>,
    command: &'m Command<'m>,
) -> Result<State<'b, 'm>, FlatRefusal>
    requires kept { IsRestKept library.now state }
    requires parts { HaveParts library.now }
    requires part { IsPart command.now.part }
    ensures kept { IfOk result (λ s. IsRestKept library.now s) }
    ensures less { IfOk result
        (λ s. most_turns library.now s ≤ most_turns library.now state.entry) }
    ensures value { MatchResult result
        (λ s. run_rest library.now s
        ≡ after_take library.now state.entry.frames state.entry.flat command.entry.now)
        (λ e. RefusesAs e
        (after_take library.now state.entry.frames state.entry.flat command.entry.now)) }
{
    match use_in(&command.part) {
        Some(call) => take_use(alloc, library, state, command.line, call),
        None => {
            let State {
                top,
                below,
                copies,
                mut draft,
            } = state;
            match take_part(alloc, &top.scope, &mut draft, command) {
                Ok(()) => Ok(State {
                    top,
                    below,
                    copies,
                    draft,
                }),
                Err(refusal) => Err(refusal),
            }
        }
    }
}
