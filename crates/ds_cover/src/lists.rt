//! The tables of up to six inputs, in shelves by size.
ghost use Rattle.std.specs.Prelude.{◌≡◌, ◌<◌, ◌≤◌, ◌-◌, ◌^◌, ℕ, true, Bool, List, [], ◌∷◌, length};
ghost use Rattle.std.specs.Prelude.{IfOk};
ghost use Rattle.ds_cover.specs.Bank.{driven_at};
ghost use Rattle.ds_cover.specs.Series.{IsAddedTo, IsSmallAdded, shelves_of, size_of_kind};
ghost use Rattle.ds_cover.specs.Small.{no_shelf};
ghost use Rattle.ds_cover.specs.Ternary.{IsWordOf};
ghost use Rattle.ds_cover.specs.declared.mask.Mask.{Mask};

use crate::nine::Nine;
use crate::run::{Run, TableKind};
use crate::shelf::{Shelf, WordedShelf};
use crate::small::{Four, Three, Two};
use crate::wide::{Five, Six};
use crate::{Bank, Quick};
use std::alloc::{AllocError, Global};

/// Tables of up to six inputs, in shelves by size, and beside those of up to three what they are
/// for all values, also unknown ones.
pub struct Lists {
    /// Of one or two inputs.
    pub twos: WordedShelf<Two, Nine>,
    /// Of three.
    pub threes: WordedShelf<Three, u64>,
    /// Of four.
    pub fours: Shelf<Four>,
    /// Of five.
    pub fives: Shelf<Five>,
    /// Of six.
    pub sixes: Shelf<Six>,
}

impl Drop for Lists {
    fn drop(self) {
        let Lists {
            twos: _,
            threes: _,
            fours: _,
            fives: _,
            sixes: _,
        } = self;
    }
}

impl Lists {
    // Without tables.
    pub(crate) fn new(alloc: Global) -> Self
        ensures { shelves_of result
            ≡ no_shelf ∷ no_shelf ∷ no_shelf ∷ no_shelf ∷ no_shelf ∷ [] }
    {
        Lists {
            twos: WordedShelf::new(alloc),
            threes: WordedShelf::new(alloc),
            fours: Shelf::new(alloc),
            fives: Shelf::new(alloc),
            sixes: Shelf::new(alloc),
        }
    }

    // Adds a table of a bank to the shelf of its size, and says where it stands. It is the one with
    // this number in the order.
    pub(crate) fn add(
        &mut self,
        quick: &Quick,
        bank: &Bank,
        table: usize,
        at: usize,
    ) -> Result<Run, AllocError>
        requires table { table < length bank.now }
        requires at { at < 2 ^ 64 - 1 }
        ensures { IfOk result (IsSmallAdded quick.now (driven_at bank.now table).cover.masks
            (driven_at bank.now table).cover.on (length (driven_at bank.now table).cover.inputs) at
            (shelves_of self.old) (shelves_of self.new)) }
    {
        let (kind, first) = self.add_kind(quick, bank, table, at)?;
        Ok(Run {
            kind,
            at,
            first,
            end: first + 1,
        })
    }

    // The same, and says of which kind it is, and at which place there.
    fn add_kind(
        &mut self,
        quick: &Quick,
        bank: &Bank,
        table: usize,
        at: usize,
    ) -> Result<(TableKind, usize), AllocError>
        requires { table < length bank.now }
        ensures { IfOk result (λ r. IsAddedTo quick.now (driven_at bank.now table).cover.masks
            (driven_at bank.now table).cover.on (length (driven_at bank.now table).cover.inputs) at
            (shelves_of self.old) (shelves_of self.new) r.1 (size_of_kind r.0)) }
    {
        if !quick.few {
            return Ok((TableKind::Others, at));
        }
        let inputs = bank.inputs(table).len();
        if inputs <= 3 {
            self.add_worded(quick, inputs, bank.word(table))
        } else {
            self.add_wide(quick, inputs, at)
        }
    }

    // The same of one of up to three inputs, with its word.
    fn add_worded(
        &mut self,
        quick: &Quick,
        inputs: usize,
        word: u64,
    ) -> Result<(TableKind, usize), AllocError>
        requires few { quick.now.few ≡ true }
        requires inputs { inputs ≤ 3 }
        ensures { IfOk result (λ r. (masks : List Mask) (on : Bool) (count at : ℕ)
            → IsWordOf masks on word → count ≡ inputs → IsAddedTo quick.now masks on count at
            (shelves_of self.old) (shelves_of self.new) r.1 (size_of_kind r.0)) }
    {
        if inputs == 3 {
            return Ok((TableKind::Threes, self.threes.add(quick, word)?));
        }
        Ok((TableKind::Twos, self.twos.add(quick, word)?))
    }

    // The same of one of more.
    fn add_wide(
        &mut self,
        quick: &Quick,
        inputs: usize,
        at: usize,
    ) -> Result<(TableKind, usize), AllocError>
        requires { quick.now.few ≡ true }
        ensures { IfOk result (λ r. (masks : List Mask) (on : Bool) (count : ℕ)
            → count ≡ inputs → IsAddedTo quick.now masks on count at (shelves_of self.old)
            (shelves_of self.new) r.1 (size_of_kind r.0)) }
    {
        if inputs == 4 {
            return Ok((TableKind::Fours, self.fours.add(quick)?));
        }
        if inputs == 5 {
            return Ok((TableKind::Fives, self.fives.add(quick)?));
        }
        if inputs == 6 {
            return Ok((TableKind::Sixes, self.sixes.add(quick)?));
        }
        Ok((TableKind::Others, at))
    }
}
