//! The flat design of a text's models.
ghost use Rattle.std.specs.Prelude.{◌≡◌, Ok, length, IfOk, MatchResult, slice_index_or, []};
ghost use Rattle.ds_base.specs.Refusal.{IsMeant, RefusesAs};
ghost use Rattle.ds_design.specs.Source.{IsBlif};
ghost use Rattle.ds_design.specs.InRange.{IsInRange};
ghost use Rattle.ds_flat.specs.Copies.{flat_of};
ghost use Rattle.ds_flat.specs.Run.{IsRestKept, HaveParts, run_rest};
ghost use Rattle.ds_flat.specs.Turn.{ComesTo};

use crate::advance::advance;
use crate::bare::{Bare, bare_models};
use crate::design_draft::DesignDraft;
use crate::fault::FlatRefusal;
use crate::frame::Open;
use crate::head::Head;
use crate::library::Library;
use crate::scope::Scope;
use crate::stack::Stack;
use crate::step::{State, StepOutcome};
use ds_base::{OutOfMemory, Refusal, Seq};
use ds_design::{Blif, Design};
use std::alloc::Global;

/// The flat design of the main model, the first of the text: each use of a model is replaced by
/// the model's commands, as the next copy. The first command that has a fault gives the fault.
pub fn flatten(alloc: Global, blif: &Blif<'_>) -> Result<Design, FlatRefusal>
    ensures { IsMeant result (flat_of blif.now) }
{
    match bare_models(alloc, blif.models()) {
        Ok(models) => flattened(alloc, models.as_slice()),
        Err(_) => Err(Refusal::Memory),
    }
}

// The flat design of models without the commands that add nothing.
fn flattened(alloc: Global, models: &[Bare<'_>]) -> Result<Design, FlatRefusal>
    requires { IsBlif models.now }
    ensures { IsMeant result (flat_of models.now) }
{
    match all_copies(alloc, models) {
        Ok(draft) => {
            let design = finish(alloc, draft)?;
            Ok(design)
        }
        Err(refusal) => Err(refusal),
    }
}

// All copies of the main model are taken.
fn all_copies<'m>(alloc: Global, models: &[Bare<'m>]) -> Result<DesignDraft<'m>, FlatRefusal>
    requires { IsBlif models.now }
    ensures { MatchResult result
        (λ d. (flat_of models.entry.now ≡ Ok d) × IsInRange d)
        (λ e. RefusesAs e (flat_of models.entry.now)) }
{
    match Library::of(alloc, models) {
        Err(_) => Err(Refusal::Memory),
        Ok(library) => match Stack::new(alloc, models.len()) {
            Err(_) => Err(Refusal::Memory),
            Ok(below) => from_first(alloc, &library, &models[0], below),
        },
    }
}

// The main model's copy is taken, with those in it.
fn from_first<'b, 'm>(
    alloc: Global,
    library: &Library<'b, 'm>,
    main: &'b Bare<'m>,
    below: Stack<'b, 'm>,
) -> Result<DesignDraft<'m>, FlatRefusal>
    requires blif { IsBlif library.now }
    requires main { main.now ≡ slice_index_or library.now 0 main.now }
    requires below { below ≡ record { frames = []; places = []; models = length library.now } }
    ensures { MatchResult result (λ d. (flat_of library.now ≡ Ok d) × IsInRange d)
        (λ e. RefusesAs e (flat_of library.now)) }
{
    let first = Open {
        model: 0,
        name: main.name(),
        scope: Scope::new(alloc, 0),
        commands: main.commands(),
    };
    let state = State {
        top: first,
        below,
        copies: 0,
        draft: DesignDraft::new(alloc, main.name()),
    };
    match all_taken(alloc, library, state) {
        Ok(draft) => Ok(draft),
        Err(refusal) => Err(refusal),
    }
}

// What is left is taken, step by step.
fn all_taken<'b, 'm>(
    alloc: Global,
    library: &Library<'b, 'm>,
    state: State<'b, 'm>,
) -> Result<DesignDraft<'m>, FlatRefusal>
    requires kept { IsRestKept library.now state }
    requires parts { HaveParts library.now }
    ensures { MatchResult result (λ d. ComesTo library.now d state.entry)
        (λ e. RefusesAs e (run_rest library.now state.entry)) }
{
    let mut state = state;
    'turns: loop {
        match advance(alloc, library, state) {
            Ok(StepOutcome::Next(next)) => state = next,
            Ok(StepOutcome::Done(draft)) => return Ok(draft),
            Err(refusal) => return Err(refusal),
        }
    }
}

// The design of what was taken.
fn finish(alloc: Global, draft: DesignDraft<'_>) -> Result<Design, OutOfMemory>
    requires { IsInRange draft }
    ensures { IfOk result (λ d. d ≡ draft.entry) }
{
    let head = draft.head(alloc)?;
    let (tables, registers) = draft.into_parts();
    let Head {
        name,
        nets,
        inputs,
        outputs,
        clocks,
    } = head;
    Ok(Design::of(
        name,
        nets,
        inputs,
        outputs,
        clocks,
        Seq::of(tables),
        Seq::of(registers),
    ))
}
