//! The signals of a graph text, and dummies among them.
ghost use Rattle.std.specs.Prelude.{◌≡◌, ◌≢◌, ◌<◌, ◌≤◌, length, false, Ok, Some};
ghost use Rattle.std.specs.Prelude.{IfErr, IfOk, IfSome, OnOk, AllPairs, option_map, slice_get};
ghost use Rattle.ds_base.specs.Refusal.{RefusesAs};
ghost use Rattle.ds_lines.specs.Words.{texts, word_at};
ghost use Rattle.ds_astg.specs.Signals.{no_names, role_of, with_declared, may_have as may_have_in};
ghost use Rattle.ds_astg.specs.Line.{declare as declare_in, declare_all as declare_words};
ghost use Rattle.ds_astg.specs.Line.{may_declare as may_declare_in};
ghost use Rattle.ds_astg.specs.Node.{event_in, first_number};
ghost use Rattle.ds_lines.specs.Names.{has_name};

use crate::declaration::Declaration;
use crate::fault::AstgKind;
use crate::key::Key;
use crate::places::Places;
use crate::role::{Role, may_have};
use crate::word::{is_signal, name_in};
use ds_base::{Limit, OutOfMemory, Refusal};
use ds_lines::{Names, name, word};
use std::alloc::Global;
use std::marker::Model;

/// Declared names in the order of their declaration, each once, with what each is declared as, and
/// how many events they have.
pub struct Signals<'a> {
    names: Names<'a>,
    declared: Vec<Declaration>,
    events: u32,
}

impl Drop for Signals<'_> {
    fn drop(self) {
        let Signals {
            names: _,
            declared: _,
            events: _,
        } = self;
    }
}

impl<'a> Model for Signals<'a> {
    ghost use Rattle.ds_astg.specs.Signals.{Declared};
    ghost use Rattle.ds_astg.specs.Numbered.{AreNumbered, roles_of};

    ghost Value = { Declared };

    ghost view = { λ s. record { names = s.names; roles = roles_of s.declared.items } };

    ghost invariant = { λ s. AreNumbered s.names s.declared.items s.events };
}

impl<'a> Signals<'a> {
    /// No names.
    pub fn new(alloc: Global) -> Self
        ensures { result ≡ no_names }
    {
        Signals {
            names: Names::new(alloc),
            declared: Vec::new(alloc),
            events: 0,
        }
    }

    /// How many names there are.
    pub fn len(&self) -> usize
        ensures value { result ≡ length self.now.names }
        ensures few { result ≤ 65536 }
        ensures distinct { AllPairs (λ a b. a ≢ b) self.now.names }
    {
        self.names.len()
    }

    /// The name at a place.
    pub fn name(&self, place: usize) -> &'a [u8]
        requires { place < length self.now.names }
        ensures { result.now ≡ word_at self.now.names place }
    {
        self.names.name(place)
    }

    /// What the name at a place is declared as.
    pub fn role(&self, place: usize) -> Role
        requires { place < length self.now.roles }
        ensures { slice_get self.now.roles place ≡ Some result }
    {
        self.declared[place].role
    }

    /// Declares names, before which these places stand.
    pub fn declare_all(
        &mut self,
        alloc: Global,
        role: Role,
        places: &Places<'a>,
        words: &[&'a [u8]],
    ) -> Result<(), Refusal<AstgKind>>
        ensures ok { OnOk result
            (declare_words role places.now (texts words.now) self.old ≡ Ok self.new) }
        ensures fault { IfErr result
            (λ e. RefusesAs e (declare_words role places.now (texts words.now) self.old)) }
    {
        for i in 0..words.len() {
            self.declare(alloc, role, places, word(words, i))?;
        }
        Ok(())
    }

    // Declares a name, which may be declared before.
    fn declare(
        &mut self,
        alloc: Global,
        role: Role,
        places: &Places<'a>,
        word: &'a [u8],
    ) -> Result<(), Refusal<AstgKind>>
        ensures ok { OnOk result (declare_in role places.now word.now self.old ≡ Ok self.new) }
        ensures fault { IfErr result
            (λ e. RefusesAs e (declare_in role places.now word.now self.old)) }
    {
        if !self.may_declare(role, places, word) {
            return Err(Refusal::Fault(AstgKind::BadWord(name(alloc, word)?)));
        }
        if self.has(word) {
            return Ok(());
        }
        if self.names.len() as u64 >= Limit::Signals.most() {
            return Err(Refusal::Fault(AstgKind::TooMany(Limit::Signals)));
        }
        self.add(role, word)?;
        Ok(())
    }

    // Whether a name may be declared as such.
    fn may_declare(&self, role: Role, places: &Places<'a>, word: &'a [u8]) -> bool
        ensures { result ≡ may_declare_in role places.now word.now self.now }
    {
        is_signal(word) && !places.has(Key::Named(word)) && self.may_be(role, word)
    }

    // Whether a name is declared as such, or not yet.
    fn may_be(&self, role: Role, word: &[u8]) -> bool
        ensures { result ≡ may_have_in (role_of self.now word.now) role }
    {
        match self.declaration(word) {
            None => true,
            Some(declaration) => may_have(Some(declaration.role), role),
        }
    }

    // Whether a name is declared.
    fn has(&self, word: &[u8]) -> bool
        ensures { result ≡ has_name self.now.names word.now }
    {
        self.names.place(word) < self.names.len()
    }

    // Adds a name that is not declared yet.
    fn add(&mut self, role: Role, word: &'a [u8]) -> Result<(), OutOfMemory>
        requires new { has_name self.old.names word.now ≡ false }
        requires room { length self.old.names < 65536 }
        ensures { OnOk result (self.new ≡ with_declared role word.now self.old) }
    {
        self.names.insert(word)?;
        let first = self.events;
        self.declared.push(Declaration { role, first })?;
        self.events = first + role.count();
        Ok(())
    }

    // What is known of a name, where it is declared.
    fn declaration(&self, name: &[u8]) -> Option<Declaration>
        ensures role { option_map (λ d. d.role) result ≡ role_of self.now name.now }
        ensures first { IfSome result (λ d. d.first ≡ first_number self.now name.now) }
        ensures few { IfSome result (λ d. d.first ≤ 131072) }
    {
        let place = self.names.place(name);
        if place < self.declared.len() {
            Some(self.declared[place])
        } else {
            None
        }
    }

    /// The number of the event for which a word stands.
    pub fn event(&self, word: &[u8]) -> Option<u32>
        ensures { result ≡ event_in self.now word.now }
    {
        match self.declaration(name_in(word)) {
            None => None,
            Some(declaration) => declaration.event(word),
        }
    }
}
