//! Some tables of a bank that is lent, in several lists, each in the order in which it is set.
ghost use Rattle.std.specs.Prelude.{◌≡◌, ◌<◌, ◌≤◌, ◌^◌, [], ◌∷◌, ◌++◌, length, All, IfOk, OnOk};
ghost use Rattle.std.specs.Prelude.{slice_index_or};
ghost use Rattle.ds_cover.specs.Bank.{AreNetsWithin, after_tables};
ghost use Rattle.ds_cover.specs.Series.{AreAdded, FindsKnown, in_table_order, shelves_of};
ghost use Rattle.ds_cover.specs.Small.{part_of};

use crate::Bank;
use crate::lists::Lists;
use crate::run::{Run, add_from, set_known_runs, set_runs};
use ds_base::{OutOfMemory, Row3, Seq};
use std::alloc::{AllocError, Global};
use std::marker::Model;

/// Some tables of a bank that others have too, in several lists. Contracts see all tables of the
/// bank, and the lists. All lists stand in the same few vectors.
pub struct Selections<'a> {
    bank: &'a Bank,
    order: Vec<u32>,
    lists: Lists,
    runs: Vec<Run>,
    // The runs of list n begin at the bound n and end at the bound n + 1.
    bounds: Vec<usize>,
}

impl<'a> Drop for Selections<'a> {
    fn drop(self) {
        let Selections {
            bank: _,
            order: _,
            lists: _,
            runs: _,
            bounds: _,
        } = self;
    }
}

impl<'a> Model for Selections<'a> {
    ghost use Rattle.std.specs.Prelude.{◌<◌, length, All};
    ghost use Rattle.ds_cover.specs.Selections.{AreBounded, Selected, lists_between};
    ghost use Rattle.ds_cover.specs.Series.{in_table_order, shelves_of};

    ghost Value = { Selected };

    ghost view = { λ s. record {
      tables = s.bank.now;
      lists = lists_between s.order.items s.runs.items s.bounds.items;
    } };

    ghost invariant = { λ s. All (λ k. k < length s.bank.now) s.order.items
        × AreBounded (shelves_of s.lists) (in_table_order s.bank.now s.order.items) s.runs.items
        s.bounds.items };
}

impl<'a> Selections<'a> {
    /// The tables of these lists.
    pub fn of(alloc: Global, bank: &'a Bank, lists: &[Seq<u32>]) -> Result<Self, OutOfMemory>
        requires { All (λ list. All (λ k. k < length bank.now) list) lists.now }
        ensures ok { IfOk result (λ s. s ≡ record { tables = bank.now; lists = lists.now }) }
    {
        let mut bounds = first_bound(alloc, lists.len() + 1)?;
        let mut order = Vec::new(alloc);
        let mut kinds = Lists::new(alloc);
        let mut runs = Vec::new(alloc);
        for list in lists {
            add_list(bank, list.as_slice(), &mut order, &mut kinds, &mut runs)?;
            bounds.push(runs.len())?;
        }
        Ok(Selections {
            bank,
            order,
            lists: kinds,
            runs,
            bounds,
        })
    }

    /// How many lists there are.
    pub fn count(&self) -> usize
        ensures value { result ≡ length self.now.lists }
        ensures few { result < 2 ^ 63 }
    {
        self.bounds.len() - 1
    }

    /// Sets what the tables of a list drive, one after another.
    pub fn set(&self, number: usize, nets: &mut Row3)
        requires number { number < length self.now.lists }
        requires within { All (λ t. AreNetsWithin t nets.old) self.now.tables }
        ensures { nets.new ≡ after_tables self.now.tables nets.old
            (slice_index_or self.now.lists number []) }
    {
        let (first, end) = (self.bounds[number], self.bounds[number + 1]);
        let runs = between(self.runs.as_slice(), first, end);
        set_runs(runs, &self.lists, self.bank, self.order.as_slice(), nets);
    }

    /// The same where each table finds its inputs known. It reads shorter words.
    pub fn set_known(&self, number: usize, nets: &mut Row3)
        requires number { number < length self.now.lists }
        requires within { All (λ t. AreNetsWithin t nets.old) self.now.tables }
        requires known { FindsKnown (in_table_order self.now.tables
            (slice_index_or self.now.lists number [])) nets.old }
        ensures { nets.new ≡ after_tables self.now.tables nets.old
            (slice_index_or self.now.lists number []) }
    {
        let (first, end) = (self.bounds[number], self.bounds[number + 1]);
        let runs = between(self.runs.as_slice(), first, end);
        set_known_runs(runs, &self.lists, self.bank, self.order.as_slice(), nets);
    }
}

// The runs from one place on, up to another.
fn between(runs: &[Run], first: usize, end: usize) -> &[Run]
    requires low { first ≤ end }
    requires inside { end ≤ length runs.now }
    ensures { result.now ≡ part_of first end runs.now }
{
    &runs[first..end]
}

// The bound before the first list, with room for so many.
fn first_bound(alloc: Global, room: usize) -> Result<Vec<usize>, AllocError>
    ensures { IfOk result (λ bounds. bounds.items ≡ 0 ∷ []) }
{
    let mut bounds = Vec::with_capacity(alloc, room)?;
    bounds.push(0)?;
    Ok(bounds)
}

// Adds a list behind the order, its tables to the lists of their kinds, and its runs behind those
// that are there.
fn add_list(
    bank: &Bank,
    list: &[u32],
    order: &mut Vec<u32>,
    kinds: &mut Lists,
    runs: &mut Vec<Run>,
) -> Result<(), AllocError>
    requires places { All (λ k. k < length bank.now) order.old.items }
    requires within { All (λ k. k < length bank.now) list.now }
    ensures ok_order { OnOk result (order.new.items ≡ order.old.items ++ list.now) }
    ensures ok_added { OnOk result (AreAdded (shelves_of kinds.old) (shelves_of kinds.new)
        (in_table_order bank.now order.new.items) (length order.old.items) runs.old.items
        runs.new.items) }
{
    let start = order.len();
    order.extend_from_slice(list)?;
    add_from(kinds, runs, bank, order.as_slice(), start)?;
    Ok(())
}
