//! The first place of each text.
ghost use Rattle.std.specs.Prelude.{◌≡◌, ◌≤◌, ◌<◌, ◌^◌, length, IfOk, MatchOption};
ghost use Rattle.ds_lines.specs.Names.{place_of_name};

use ds_base::{EventId, Name, OutOfMemory};
use ds_lines::Names;
use std::alloc::Global;
use std::marker::Model;

/// Texts, found by their hash: each with its first place.
pub struct Lookup<'a> {
    texts: &'a [Name],
    names: Names<'a>,
    firsts: Vec<EventId>,
}

impl Drop for Lookup<'_> {
    fn drop(self) {
        let Lookup {
            texts: _,
            names: _,
            firsts: _,
        } = self;
    }
}

impl<'a> Model for Lookup<'a> {
    ghost use Rattle.std.specs.Prelude.{List, ℕ};
    ghost use Rattle.ds_rows.specs.Lookup.{AreFirsts};

    ghost Value = { List (List ℕ) };

    ghost view = { λ l. l.texts.now };

    ghost invariant = { λ l. AreFirsts l.texts.now l.names l.firsts.items };
}

impl<'a> Lookup<'a> {
    /// Of texts, of which several may be the same.
    pub fn of(alloc: Global, texts: &'a [Name]) -> Result<Self, OutOfMemory>
        requires { length texts.now < 2 ^ 32 }
        ensures { IfOk result (λ lookup. lookup ≡ texts.now) }
    {
        let mut names = Names::new(alloc);
        let mut firsts = Vec::new(alloc);
        for i in 0..texts.len() {
            let (_, is_new) = names.insert(texts[i].as_slice())?;
            if is_new {
                firsts.push(EventId::new(i as u32))?;
            }
        }
        Ok(Lookup {
            texts,
            names,
            firsts,
        })
    }

    /// The first place of a text.
    pub fn find(&self, word: &[u8]) -> Option<EventId>
        ensures { MatchOption result (length self.now ≤ place_of_name self.now word.now)
            (λ v. (v ≡ place_of_name self.now word.now) × (v < length self.now)) }
    {
        let place = self.names.place(word);
        if place == self.names.len() {
            return None;
        }
        Some(self.firsts[place])
    }
}
