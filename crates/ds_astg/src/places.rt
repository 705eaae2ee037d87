//! The places of a graph text.
ghost use Rattle.std.specs.Prelude.{◌≡◌, ◌<◌, ◌≤◌, [], length, Ok, IfErr, IfOk, OnOk};
ghost use Rattle.ds_base.specs.Refusal.{RefusesAs};
ghost use Rattle.ds_astg.specs.Keys.{key_of};
ghost use Rattle.ds_astg.specs.Place.{Places as Kept, has_place, name_at, no_places};
ghost use Rattle.ds_astg.specs.Place.{number_of_place};
ghost use Rattle.ds_astg.specs.Place.{with_place, place_at, with_place_at};

use crate::fault::AstgKind;
use crate::key::{Key, name_of};
use crate::place::Place;
use ds_base::{Limit, OutOfMemory, Refusal};
use indexmap::IndexSet;
use std::alloc::Global;
use std::marker::Model;

/// Places in the order in which they first stand, and what tells each from the others.
pub struct Places<'a> {
    keys: IndexSet<Key<'a>>,
    places: Vec<Place>,
}

impl Drop for Places<'_> {
    fn drop(self) {
        let Places { keys: _, places: _ } = self;
    }
}

impl<'a> Model for Places<'a> {
    ghost use Rattle.std.specs.Prelude.{map, length, ◌≤◌};
    ghost use Rattle.ds_astg.specs.Keys.{key_of};
    ghost use Rattle.ds_astg.specs.Place.{Places as Kept};

    ghost Value = { Kept };

    ghost view = { λ p. record { keys = map key_of p.keys.keys; places = p.places.items } };

    ghost invariant = { λ p. length p.keys.keys ≤ length p.places.items };
}

impl<'a> Places<'a> {
    /// No places.
    pub fn new(alloc: Global) -> Self
        ensures { result ≡ no_places }
    {
        Places {
            keys: IndexSet::new(alloc),
            places: Vec::new(alloc),
        }
    }

    /// How many there are.
    pub fn len(&self) -> usize
        ensures value { result ≡ length self.now.keys }
        ensures within { result ≤ length self.now.places }
    {
        self.keys.len()
    }

    /// The places.
    pub fn places(&self) -> &[Place]
        ensures { result.now ≡ self.now.places }
    {
        self.places.as_slice()
    }

    /// The name of a place, empty where it has none.
    pub fn name(&self, number: usize) -> &'a [u8]
        requires { number < length self.now.keys }
        ensures { result.now ≡ name_at self.now number }
    {
        match self.keys.get_index(number) {
            Some(key) => name_of(*key),
            None => &[],
        }
    }

    /// Whether a place stands before.
    pub fn has(&self, key: Key<'a>) -> bool
        ensures { result ≡ has_place self.now (key_of key.entry) }
    {
        self.number(key) < self.keys.len()
    }

    /// The number of a place, how many there are where it is not there.
    pub fn number(&self, key: Key<'a>) -> usize
        ensures value { result ≡ number_of_place self.now (key_of key.entry) }
        ensures within { result ≤ length self.now.keys }
    {
        match self.keys.get_index_of(&key) {
            Some(number) => number,
            None => self.keys.len(),
        }
    }

    /// The place with a number, an empty one where there is none.
    pub fn place(&self, number: usize) -> Place
        ensures { result ≡ place_at self.now number }
    {
        if number < self.places.len() {
            self.places[number]
        } else {
            Place::named(0)
        }
    }

    /// Puts another place at a number, where there is one.
    pub fn set(&mut self, number: usize, place: Place)
        ensures { self.new ≡ with_place_at self.old number place }
    {
        if number < self.places.len() {
            self.places[number] = place;
        }
    }

    /// Adds a place where it does not stand before.
    pub fn add(&mut self, key: Key<'a>, place: Place) -> Result<(), Refusal<AstgKind>>
        ensures ok { OnOk result (with_place (key_of key.entry) place self.old ≡ Ok self.new) }
        ensures fault { IfErr result
            (λ e. RefusesAs e (with_place (key_of key.entry) place self.old)) }
    {
        if self.has(key) {
            return Ok(());
        }
        if self.keys.len() as u64 >= Limit::Arcs.most() {
            return Err(Refusal::Fault(AstgKind::TooMany(Limit::Arcs)));
        }
        self.places.push(place)?;
        self.keys.insert(key)?;
        Ok(())
    }
}
