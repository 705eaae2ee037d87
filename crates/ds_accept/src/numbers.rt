//! Events of a list, found by their hash.
ghost use Rattle.std.specs.Prelude.{◌≡◌, ◌≢◌, ◌++◌, ◌∷◌, [], AllPairs, IfOk, MatchOption, OnOk};
ghost use Rattle.std.specs.Prelude.{map};
ghost use Rattle.ds_accept.specs.Codes.{event_code, key_code, sign_of, IsMissingCode, StandsAtCode};

use ds_base::OutOfMemory;
use ds_marked::{Event, Kind};
use indexmap::IndexSet;
use std::alloc::Global;
use std::marker::Model;

/// A signal, and the number of what it does.
#[derive(Clone, Copy, PartialEq, Eq, Hash)]
pub struct Key<'a> {
    pub signal: &'a [u8],
    pub sign: u8,
}

/// The events of a list. Contracts see their codes, in order.
pub struct Numbers<'a> {
    keys: IndexSet<Key<'a>>,
}

impl Drop for Numbers<'_> {
    fn drop(self) {
        let Numbers { keys: _ } = self;
    }
}

impl<'a> Model for Numbers<'a> {
    ghost use Rattle.std.specs.Prelude.{List, map};
    ghost use Rattle.ds_accept.specs.Codes.{Code, key_code};

    ghost Value = { List Code };

    ghost view = { λ n. map key_code n.keys.keys };
}

impl<'a> Numbers<'a> {
    /// Of events, none of which stands there twice.
    pub fn of(alloc: Global, events: &'a [Event]) -> Result<Self, OutOfMemory>
        requires { AllPairs (λ a b. a ≢ b) events.now }
        ensures { IfOk result (λ n. n ≡ map event_code events.now) }
    {
        let mut numbers = Numbers {
            keys: IndexSet::new(alloc),
        };
        for event in events {
            numbers.put(event)?;
        }
        Ok(numbers)
    }

    // Puts an event behind the others.
    fn put(&mut self, event: &'a Event) -> Result<(), OutOfMemory>
        requires { IsMissingCode self.old (event_code event.now) }
        ensures { OnOk result (self.new ≡ self.old ++ event_code event.now ∷ []) }
    {
        self.keys.insert_full(key_of(event))?;
        Ok(())
    }

    /// The place of an event.
    pub fn place(&self, event: &Event) -> Option<usize>
        ensures { MatchOption result (IsMissingCode self.now (event_code event.now))
            (StandsAtCode self.now (event_code event.now)) }
    {
        self.keys.get_index_of(&key_of(event))
    }
}

// The key of an event.
fn key_of(event: &Event) -> Key<'_>
    ensures { key_code result ≡ event_code event.now }
{
    Key {
        signal: event.signal.as_slice(),
        sign: sign(event.kind),
    }
}

fn sign(kind: Kind) -> u8
    ensures { result ≡ sign_of kind }
{
    match kind {
        Kind::Rise => 0,
        Kind::Fall => 1,
        Kind::Dummy => 2,
    }
}
