//! One line after the lines before it.
ghost use Rattle.std.specs.Prelude.{◌≡◌, ◌≢◌, ◌<◌, None, true, length, IfOk, MatchResult};
ghost use Rattle.std.specs.Prelude.{option_map};
ghost use Rattle.ds_base.specs.Refusal.{TellsFault};
ghost use Rattle.ds_lines.specs.Words.{texts};
ghost use Rattle.ds_blif.specs.Fault.{names_fault as names_fault_in};
ghost use Rattle.ds_blif.specs.State.{State as Before, own_fault as own_fault_in, fault_by};
ghost use Rattle.ds_blif.specs.State.{fault_in, after_head, after};
ghost use Rattle.ds_blif.specs.declared.head.Head.TheVariants.{Model as ModelHead};

use crate::fault::BlifKind;
use crate::head::{Head, head_of};
use crate::latch::latch_fault;
use crate::model_names::add_model;
use crate::row::row_fault;
use crate::state::{State, first_after, open_after, table_after, wants_model};
use crate::subckt::subckt_fault;
use ds_base::{Limit, OutOfMemory, Refusal};
use ds_lines::{name, word};
use std::alloc::Global;

fn names_fault(words: &[&[u8]]) -> Option<BlifKind>
    ensures { result ≡ names_fault_in (texts words.now) }
{
    if words.len() < 2 {
        Some(BlifKind::BadWords)
    } else if words.len() as u64 > Limit::TableInputs.most() + 2 {
        Some(BlifKind::TooMany(Limit::TableInputs))
    } else {
        None
    }
}

// The fault of a line for its own sake, where it is no model's head.
fn own_fault(
    alloc: Global,
    head: Head,
    state: &State<'_>,
    words: &[&[u8]],
) -> Result<Option<BlifKind>, OutOfMemory>
    requires some { 0 < length words.now }
    requires other { head ≢ ModelHead }
    ensures { IfOk result (λ k. k ≡ own_fault_in head state.now (texts words.now)) }
{
    match head {
        Head::Row => Ok(row_fault(state.table, state.first, words)),
        Head::Names => Ok(names_fault(words)),
        Head::Latch => Ok(latch_fault(words)),
        Head::Subckt => subckt_fault(alloc, words),
        Head::Model => unreachable!(),
        Head::Inputs | Head::Outputs | Head::Clock | Head::End | Head::Skipped | Head::Unknown =>
            Ok(None),
    }
}

// The fault of a line, where it is no model's head.
fn line_fault(
    alloc: Global,
    head: Head,
    state: &State<'_>,
    words: &[&[u8]],
) -> Result<Option<BlifKind>, OutOfMemory>
    requires some { 0 < length words.now }
    requires other { head ≢ ModelHead }
    ensures { IfOk result (λ k. k ≡ fault_by head state.now (texts words.now)) }
{
    if head == Head::Unknown {
        let command = name(alloc, word(words, 0))?;
        return Ok(Some(BlifKind::Unsupported(command)));
    }
    if wants_model(head) && !state.is_open {
        return Ok(Some(BlifKind::NoModel));
    }
    own_fault(alloc, head, state, words)
}

// Goes on to what a line leaves open, where it is no model's head.
fn go_on<'a>(head: Head, state: &mut State<'a>, words: &[&'a [u8]])
    requires some { 0 < length words.now }
    requires other { head ≢ ModelHead }
    ensures { state.new ≡ after_head head (texts words.now) state.old }
{
    state.is_open = open_after(head, state.is_open);
    state.table = table_after(head, words, state.table);
    state.first = first_after(head, words, state.first);
}

// A model's head.
fn model_step<'a>(
    alloc: Global,
    state: &mut State<'a>,
    words: &[&'a [u8]],
) -> Result<(), Refusal<BlifKind>>
    requires some { 0 < length words.now }
    ensures { MatchResult result
        (λ _. (fault_by ModelHead state.old (texts words.now) ≡ None) × (state.new ≡ after_head
        ModelHead (texts words.now) state.old))
        (λ e. TellsFault e (fault_by ModelHead state.old (texts words.now))) }
{
    match add_model(alloc, &mut state.models, words) {
        Ok(()) => {
            state.is_open = true;
            state.table = None;
            state.first = None;
            Ok(())
        }
        Err(refusal) => Err(refusal),
    }
}

/// Goes on to the state behind a line, or tells the fault of the line.
pub fn step<'a>(
    alloc: Global,
    state: &mut State<'a>,
    words: &[&'a [u8]],
) -> Result<(), Refusal<BlifKind>>
    requires { 0 < length words.now }
    ensures { MatchResult result
        (λ _. (fault_in state.old (texts words.now) ≡ None) × (state.new ≡ after
        (texts words.now) state.old))
        (λ e. TellsFault e (fault_in state.old (texts words.now))) }
{
    let head = head_of(word(words, 0));
    if head == Head::Model {
        return model_step(alloc, state, words);
    }
    match line_fault(alloc, head, state, words) {
        Err(OutOfMemory) => Err(Refusal::Memory),
        Ok(Some(kind)) => Err(Refusal::Fault(kind)),
        Ok(None) => {
            go_on(head, state, words);
            Ok(())
        }
    }
}
