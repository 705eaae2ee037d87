//! What was read of a graph text.
ghost use Rattle.std.specs.Prelude.{◌≡◌, ◌<◌, length, Ok, IfErr, OnOk};
ghost use Rattle.ds_base.specs.Refusal.{RefusesAs};
ghost use Rattle.ds_lines.specs.Words.{texts};
ghost use Rattle.ds_astg.specs.Line.{State as Known, start, model_line as model_line_in};
ghost use Rattle.ds_astg.specs.Line.{declaration_line as declaration_line_in};
ghost use Rattle.ds_astg.specs.Line.{body_line as body_line_in, marking_line as marking_line_in};
ghost use Rattle.ds_astg.specs.Line.{step_by};
ghost use Rattle.ds_astg.specs.Steps.{IsGraphRefusal};
ghost use Rattle.ds_astg.specs.declared.fault.AstgKind.TheVariants.{BadWord};

use crate::fault::AstgKind;
use crate::head::Head;
use crate::links::graph_line;
use crate::marking::{bad_marking, entries_of, mark_all};
use crate::places::Places;
use crate::role::Role;
use crate::signals::Signals;
use ds_base::Refusal;
use ds_lines::{name, word};
use std::alloc::Global;
use std::marker::Model;

/// Whether the model is named, the graph part open, the marking read; signals and places.
#[derive(Drop)]
pub struct State<'a> {
    pub is_named: bool,
    pub is_open: bool,
    pub is_marked: bool,
    pub signals: Signals<'a>,
    pub places: Places<'a>,
}

impl<'a> Model for State<'a> {
    ghost use Rattle.ds_astg.specs.Line.{State as Known};

    ghost Value = { Known };

    ghost view = { λ s. record {
      is_named = s.is_named;
      is_open = s.is_open;
      is_marked = s.is_marked;
      signals = s.signals;
      places = s.places;
    } };
}

impl<'a> State<'a> {
    /// Before all lines.
    pub fn new(alloc: Global) -> Self
        ensures { result ≡ start }
    {
        State {
            is_named: false,
            is_open: false,
            is_marked: false,
            signals: Signals::new(alloc),
            places: Places::new(alloc),
        }
    }

    /// Reads a line of a kind.
    pub fn step(
        &mut self,
        alloc: Global,
        head: Head,
        line: u64,
        words: &[&'a [u8]],
    ) -> Result<(), Refusal<AstgKind>>
        requires { 0 < length words.now }
        ensures ok { OnOk result (step_by head line (texts words.now) self.old ≡ Ok self.new) }
        ensures fault { IfErr result
            (λ e. RefusesAs e (step_by head line (texts words.now) self.old)) }
    {
        match head {
            Head::Body => self.body_line(alloc, line, words),
            Head::Model => self.model_line(alloc, words),
            Head::Signals => self.declaration_line(alloc, Role::Signal, words),
            Head::Dummies => self.declaration_line(alloc, Role::Dummy, words),
            Head::Graph => {
                self.is_open = true;
                Ok(())
            }
            Head::Marking => self.marking_line(alloc, words),
            Head::End => Ok(()),
            Head::Unknown => {
                let command = name(alloc, word(words, 0))?;
                Err(Refusal::Fault(AstgKind::Unsupported(command)))
            }
        }
    }

    // A line of the graph part.
    fn body_line(
        &mut self,
        alloc: Global,
        line: u64,
        words: &[&'a [u8]],
    ) -> Result<(), Refusal<AstgKind>>
        requires { 0 < length words.now }
        ensures ok { OnOk result (body_line_in line (texts words.now) self.old ≡ Ok self.new) }
        ensures fault { IfErr result
            (λ e. RefusesAs e (body_line_in line (texts words.now) self.old)) }
    {
        if !self.is_open {
            return bad_word(alloc, word(words, 0));
        }
        graph_line(alloc, &self.signals, &mut self.places, line, words)?;
        Ok(())
    }

    // A line that names the model.
    fn model_line(&mut self, alloc: Global, words: &[&'a [u8]]) -> Result<(), Refusal<AstgKind>>
        requires { 0 < length words.now }
        ensures ok { OnOk result (model_line_in (texts words.now) self.old ≡ Ok self.new) }
        ensures fault { IfErr result (λ e. RefusesAs e
            (model_line_in (texts words.now) self.old)) }
    {
        if self.is_named || words.len() != 2 {
            return bad_word(alloc, word(words, 0));
        }
        self.is_named = true;
        self.is_open = false;
        Ok(())
    }

    // A line that declares names as such.
    fn declaration_line(
        &mut self,
        alloc: Global,
        role: Role,
        words: &[&'a [u8]],
    ) -> Result<(), Refusal<AstgKind>>
        requires { 0 < length words.now }
        ensures ok { OnOk result
            (declaration_line_in role (texts words.now) self.old ≡ Ok self.new) }
        ensures fault { IfErr result
            (λ e. RefusesAs e (declaration_line_in role (texts words.now) self.old)) }
    {
        self.signals
            .declare_all(alloc, role, &self.places, &words[1..])?;
        self.is_open = false;
        Ok(())
    }

    // The marking.
    fn marking_line(&mut self, alloc: Global, words: &[&'a [u8]]) -> Result<(), Refusal<AstgKind>>
        requires { 0 < length words.now }
        ensures ok { OnOk result (marking_line_in (texts words.now) self.old ≡ Ok self.new) }
        ensures fault { IfErr result (λ e. RefusesAs e
            (marking_line_in (texts words.now) self.old)) }
    {
        let command = word(words, 0);
        if self.is_marked {
            return bad_marking(alloc, command);
        }
        match entries_of(alloc, &words[1..])? {
            None => bad_marking(alloc, command),
            Some(entries) => {
                mark_all(alloc, &self.signals, &mut self.places, entries.as_slice())?;
                self.is_open = false;
                self.is_marked = true;
                Ok(())
            }
        }
    }
}

// A word that is none.
fn bad_word(alloc: Global, word: &[u8]) -> Result<(), Refusal<AstgKind>>
    ensures { IsGraphRefusal (BadWord word.now) result }
{
    Err(Refusal::Fault(AstgKind::BadWord(name(alloc, word)?)))
}
