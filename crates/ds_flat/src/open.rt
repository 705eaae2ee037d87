//! The copy that a use opens.
ghost use Rattle.std.specs.Prelude.{◌≡◌, ◌≤◌, ◌<◌, ◌∷◌, ◌==◌, length, map, All, IfOk, IfErr};
ghost use Rattle.std.specs.Prelude.{MatchResult, List, ℕ, Ok};
ghost use Rattle.std.specs.List.{list_any};
ghost use Rattle.ds_lines.specs.Names.{place_of_name};
ghost use Rattle.ds_base.specs.declared.number.Limit.TheVariants.{Copies};
ghost use Rattle.ds_base.specs.Refusal.{RefusesAs};
ghost use Rattle.ds_design.specs.Source.{IsUseText, IsPart};
ghost use Rattle.ds_flat.specs.declared.fault.FlatKind.TheVariants.{UnknownModel, UnknownFormal};
ghost use Rattle.ds_flat.specs.declared.fault.FlatKind.TheVariants.{Recursive, TooMany};
ghost use Rattle.ds_flat.specs.Copies.{path_from as path_from_of, opened_within, next_copy};
ghost use Rattle.ds_flat.specs.Interface.{names_of_models, Finds};
ghost use Rattle.ds_flat.specs.Stack.{path_of};
ghost use Rattle.ds_flat.specs.Run.{IsFlatRefusal, CopiesModel, RefusesUse, opened_on};
ghost use Rattle.ds_flat.specs.Run.{refusal_of, IsCopyOf};

use crate::connect::connect;
use crate::design_draft::DesignDraft;
use crate::fault::{FlatKind, FlatRefusal, NoNumber};
use crate::frame::Open;
use crate::library::{FoundModel, Library, unknown_formal};
use crate::stack::{Stack, extended};
use ds_base::{Limit, Name, OutOfMemory, Refusal, Seq};
use ds_design::{UseText, Word};
use ds_lines::At;
use std::alloc::Global;

/// A name of its own.
fn name_of(alloc: Global, name: &Word<'_>) -> Result<Name, OutOfMemory>
    ensures { IfOk result (λ n. n ≡ name.now) }
{
    let bytes = name.get().to_vec(alloc)?;
    Ok(Seq::of(bytes))
}

fn unknown_model(alloc: Global, line: u64, name: &Word<'_>) -> FlatRefusal
    ensures { IsFlatRefusal result (record { line = line; kind = UnknownModel name.now }) }
{
    match name_of(alloc, name) {
        Ok(name) => Refusal::Fault(At {
            line,
            kind: FlatKind::UnknownModel(name),
        }),
        Err(_) => Refusal::Memory,
    }
}

fn unknown_formal_of(alloc: Global, line: u64, name: &Word<'_>) -> FlatRefusal
    ensures { IsFlatRefusal result (record { line = line; kind = UnknownFormal name.now }) }
{
    match name_of(alloc, name) {
        Ok(name) => Refusal::Fault(At {
            line,
            kind: FlatKind::UnknownFormal(name),
        }),
        Err(_) => Refusal::Memory,
    }
}

/// The refusal where a limit is passed.
pub fn too_many(line: u64, limit: Limit) -> FlatRefusal
    ensures { IsFlatRefusal result (record { line = line; kind = TooMany limit }) }
{
    Refusal::Fault(At {
        line,
        kind: FlatKind::TooMany(limit),
    })
}

/// The refusal where numbering stops.
pub fn stopped(line: u64, stop: NoNumber) -> FlatRefusal
    ensures { result ≡ refusal_of stop line }
{
    match stop {
        NoNumber::TooManyNets => Refusal::Fault(At {
            line,
            kind: FlatKind::TooMany(Limit::Nets),
        }),
        NoNumber::Memory => Refusal::Memory,
    }
}

fn path_names(
    alloc: Global,
    name: &Word<'_>,
    top: &Open<'_, '_>,
    below: &Stack<'_, '_>,
) -> Result<Vec<Name>, OutOfMemory>
    ensures { IfOk result (λ p. p.items
        ≡ path_from_of name.now (top.now.name.now ∷ path_of below.now.frames)) }
{
    let path = below.path_from(alloc, name.get())?;
    let all = extended(alloc, path, name.get(), top.name)?;
    Ok(all)
}

fn recursive(
    alloc: Global,
    line: u64,
    name: &Word<'_>,
    top: &Open<'_, '_>,
    below: &Stack<'_, '_>,
) -> FlatRefusal
    ensures { IsFlatRefusal result (record {
      line = line;
      kind = Recursive (path_from_of name.now (top.now.name.now ∷ path_of below.now.frames));
    }) }
{
    match path_names(alloc, name, top, below) {
        Ok(path) => Refusal::Fault(At {
            line,
            kind: FlatKind::Recursive(Seq::of(path)),
        }),
        Err(_) => Refusal::Memory,
    }
}

// Whether a model is among those that are being copied.
fn is_open(place: usize, top: &Open<'_, '_>, below: &Stack<'_, '_>) -> bool
    requires { place < below.now.models }
    ensures { result ≡ list_any (λ other. other == place) (top.now.model ∷ below.now.places) }
{
    top.model == place || below.has(place)
}

/// The model that a use copies, or why there is none.
pub fn checked<'l, 'b, 'm>(
    alloc: Global,
    library: &'l Library<'b, 'm>,
    top: &Open<'b, 'm>,
    below: &Stack<'b, 'm>,
    copies: u32,
    line: u64,
    call: &'m UseText<'m>,
) -> Result<FoundModel<'l, 'b, 'm>, FlatRefusal>
    requires known { top.now.model ∷ below.now.places ≡ map
        (place_of_name (names_of_models library.now))
        (top.now.name.now ∷ path_of below.now.frames) }
    requires same { below.now.models ≡ length library.now }
    requires copies { copies ≤ 65536 }
    ensures found { IfOk result
        (λ f. Finds library.now call.entry.now.model f.place f.model.now f.ports.now) }
    ensures few { IfOk result (λ f. copies < 65536) }
    ensures ok { IfOk result (λ f. CopiesModel library.now
        (top.now.name.now ∷ path_of below.now.frames) top.now.scope line call.entry.now copies
        f.model.now) }
    ensures fault { IfErr result (λ e. RefusesUse e library.now
        (top.now.name.now ∷ path_of below.now.frames) top.now.scope line call.entry.now copies) }
{
    match library.find(call.model.get()) {
        None => Err(unknown_model(alloc, line, &call.model)),
        Some(found) => {
            if is_open(found.place, top, below) {
                return Err(recursive(alloc, line, &call.model, top, below));
            }
            if copies as u64 == Limit::Copies.most() {
                return Err(too_many(line, Limit::Copies));
            }
            match unknown_formal(found.ports, call.pairs.as_slice()) {
                Some(formal) => Err(unknown_formal_of(alloc, line, formal)),
                None => Ok(found),
            }
        }
    }
}

/// The copy that a use opens, where the nets of the use come to the design, or why there is none.
pub fn open<'b, 'm>(
    alloc: Global,
    top: &Open<'b, 'm>,
    found: FoundModel<'_, 'b, 'm>,
    copies: u32,
    draft: &mut DesignDraft<'m>,
    line: u64,
    call: &'m UseText<'m>,
) -> Result<Open<'b, 'm>, FlatRefusal>
    requires call { IsUseText call.now }
    requires few { copies < 65536 }
    ensures value { MatchResult result
        (λ next. (path : List (List ℕ)) → opened_within line (next_copy path top.now.scope
        call.entry.now found.entry.model.now (record { copies = copies; design = draft.old }))
        ≡ Ok (opened_on path next copies draft.new))
        (λ e. (path : List (List ℕ)) → RefusesAs e (opened_within line (next_copy path top.now.scope
        call.entry.now found.entry.model.now (record { copies = copies; design = draft.old })))) }
    ensures model { IfOk result (λ next. IsCopyOf next found.entry.place found.entry.model.now) }
{
    match connect(
        alloc,
        &mut draft.nets,
        &top.scope,
        copies + 1,
        call.pairs.as_slice(),
    ) {
        Ok(scope) => match draft.passed_limit() {
            None => Ok(Open {
                model: found.place,
                name: found.model.name(),
                scope,
                commands: found.model.commands(),
            }),
            Some(limit) => Err(too_many(line, limit)),
        },
        Err(stop) => Err(stopped(line, stop)),
    }
}
