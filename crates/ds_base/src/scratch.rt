//! The row with the turn of each slot.
//!
//! A turn is a byte behind a base, which is one for all slots: 0 is none, and a byte above it the
//! turn that comes so many after the base. So a turn that is noted has to be at most 255 after the
//! base; where it is not, the base moves first. Forward it stops 128 before the turn, so that the
//! next such move comes 128 turns later at the soonest, and a pass over the bytes lowers them by as
//! much: those that fall to 0 are of turns that lie at the base or before it, and are forgotten.
//! Backward, where a turn at the base or before it is noted, all are forgotten.
ghost use Rattle.std.specs.Prelude.{◌≡◌, ◌↔◌, ◌+◌, ◌-◌, ◌≤◌, ◌<◌, ℕ, IfOk, IsTrue};
ghost use Rattle.std.specs.Prelude.{false, length, replicate, slice_index, slice_index_or, true};
ghost use Rattle.std.specs.Borrow.{sem};
ghost use Rattle.ds_base.specs.declared.value.Value.TheVariants.{Zero};
ghost use Rattle.ds_base.specs.Scratch.{HasSlot, IsNoted, Kept, Memory, Remembers};
ghost use Rattle.ds_base.specs.Turns.{IsSameOrLost, IsSameOrNone, noted_turn};
ghost use Rattle.ds_base.specs.LentNets.{LendsNets};

use crate::{OutOfMemory, Row3};
use std::alloc::Global;
use std::marker::Model;

/// A row with a value for each net, and for each slot a turn, which takes a byte, and whether its
/// values are those of the turn before too.
pub struct Scratch {
    nets: Row3,
    turns: Vec<u8>,
    base: u64,
    stayed: Vec<bool>,
}

impl Drop for Scratch {
    fn drop(self) {
        let Scratch {
            nets: _,
            turns: _,
            base: _,
            stayed: _,
        } = self;
    }
}

impl Model for Scratch {
    ghost use Rattle.ds_base.specs.Scratch.{Kept};
    ghost use Rattle.ds_base.specs.Turns.{noted_turns};

    ghost Value = { Kept };

    ghost view = { λ s. record {
      nets = s.nets;
      turns = noted_turns s.base s.turns.items;
      stayed = s.stayed.items;
    } };
}

impl Scratch {
    /// Zeros, and slots that are noted for no turn.
    pub fn of(alloc: Global, nets: usize, slots: usize) -> Result<Self, OutOfMemory>
        ensures ok { IfOk result (λ s. s ≡ record {
          nets = replicate nets Zero;
          turns = replicate slots 0;
          stayed = replicate slots false;
        }) }
        ensures remembers { IfOk result (λ s. (m : Memory) → m.nets ≡ nets
            → length m.slots ≡ slots → Remembers m s) }
    {
        Ok(Scratch {
            nets: Row3::with_len(alloc, nets)?,
            turns: vec![in alloc; 0u8; slots]?,
            base: 0,
            stayed: vec![in alloc; false; slots]?,
        })
    }

    /// How many slots there are.
    pub fn slots(&self) -> usize
        ensures { result ≡ length self.now.turns }
    {
        self.turns.len()
    }

    /// Whether the slot is noted for this turn; turns count from 1, and 0 is none.
    pub fn is_noted(&self, slot: usize, turn: u64) -> bool
        requires { slot < length self.now.turns }
        ensures { IsTrue result ↔ (slice_index self.now.turns slot ≡ turn) }
    {
        let byte = self.turns[slot] as u64;
        if turn > self.base {
            turn - self.base == byte
        } else {
            turn == 0 && byte == 0
        }
    }

    /// Whether the slot is noted for this turn and as one that has stayed.
    pub fn has_stayed(&self, slot: usize, turn: u64) -> bool
        requires { HasSlot slot self.now }
        ensures { IsTrue result ↔ ((slice_index self.now.turns slot ≡ turn)
            × (slice_index_or self.now.stayed slot false ≡ true)) }
    {
        self.stayed[slot] && self.is_noted(slot, turn)
    }

    /// Notes the slot for this turn. Slots of other turns may be forgotten: those of turns 128 and
    /// more before this one, and all where this one lies so far before another. Turn 0 is none:
    /// where it is noted, all slots are forgotten. `stayed` says that its values are those of the
    /// turn before too.
    pub fn note(&mut self, slot: usize, turn: u64, stayed: bool)
        requires { HasSlot slot self.old }
        ensures { IsNoted slot turn stayed self.old self.new }
    {
        self.base = base_for(turn, self.base, self.turns.as_mut_slice());
        self.turns[slot] = (turn - self.base) as u8;
        self.stayed[slot] = stayed;
    }

    /// The row.
    pub fn nets(&self) -> &Row3
        ensures { result.now ≡ self.now.nets }
    {
        &self.nets
    }

    /// The row, to be changed.
    pub fn nets_mut(&mut self) -> &mut Row3
        ensures* lends { sem 𝓛 (LendsNets self.entry result) }
        ensures value { result.now ≡ self.old.nets }
    {
        &mut self.nets
    }
}

// The base for a turn: the same, or where no byte stands for the turn behind it, another, behind
// which the bytes stand for the same turns as before, or for none where they stood for another.
fn base_for(turn: u64, base: u64, bytes: &mut [u8]) -> u64
    ensures turn { (0 < turn → result < turn) × (result ≤ turn) × (turn ≤ result + 255) }
    ensures others { (s : ℕ) → IsSameOrLost turn (noted_turn base (slice_index bytes.old s))
        (noted_turn result (slice_index bytes.new s)) }
{
    if turn > base && turn - base <= 255 {
        return base;
    }
    let next = turn.saturating_sub(128);
    lower(bytes, bytes_between(base, next));
    next
}

// How far the bytes fall where the base moves to the next: as far as it moves forward, and all the
// way down where it moves backward.
fn bytes_between(base: u64, next: u64) -> u8
    ensures { (byte : ℕ) → byte < 256
        → IsSameOrNone (noted_turn base byte) (noted_turn next (byte - result)) }
{
    if base < next && next - base < 255 {
        (next - base) as u8
    } else {
        255
    }
}

// Lowers each byte by so much, and not below 0.
fn lower(bytes: &mut [u8], by: u8)
    ensures { (s : ℕ) → slice_index bytes.new s ≡ slice_index bytes.old s - by }
{
    for i in 0..bytes.len() {
        bytes[i] = bytes[i].saturating_sub(by);
    }
}
