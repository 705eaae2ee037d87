//! The tables of a bank in the order in which they are set, those of up to six inputs by kinds.
ghost use Rattle.std.specs.Prelude.{◌≡◌, ◌<◌, length, All, IfErr, IfOk};
ghost use Rattle.ds_cover.specs.Bank.{AreNetsWithin, after_tables};
ghost use Rattle.ds_cover.specs.Series.{AreRuns, FindsKnown, in_table_order, shelves_of};

use crate::Bank;
use crate::lists::Lists;
use crate::run::{Run, add_from, set_known_runs, set_runs};
use ds_base::Row3;
use std::alloc::{AllocError, Global};
use std::marker::Model;

/// The tables of a bank, and the order in which they are set. Contracts see both.
pub struct Series {
    bank: Bank,
    order: Vec<u32>,
    lists: Lists,
    runs: Vec<Run>,
}

impl Drop for Series {
    fn drop(self) {
        let Series {
            bank: _,
            order: _,
            lists: _,
            runs: _,
        } = self;
    }
}

impl Model for Series {
    ghost use Rattle.std.specs.Prelude.{◌<◌, length, All};
    ghost use Rattle.ds_cover.specs.Series.{AreRuns, Ordered, in_table_order, shelves_of};

    ghost Value = { Ordered };

    ghost view = { λ s. record { tables = s.bank; order = s.order.items } };

    ghost invariant = { λ s. All (λ k. k < length s.bank) s.order.items
        × AreRuns (shelves_of s.lists) (in_table_order s.bank s.order.items) 0 s.runs.items };
}

impl Series {
    /// The tables of this bank, in this order. Where memory is wanting both come back.
    pub fn of(alloc: Global, bank: Bank, order: Vec<u32>) -> Result<Self, (Bank, Vec<u32>)>
        requires { All (λ k. k < length bank) order.items }
        ensures ok { IfOk result (λ s. s ≡ record { tables = bank; order = order.items }) }
        ensures back { IfErr result (λ r. (r.0 ≡ bank) × (r.1 ≡ order)) }
    {
        match lists_of(alloc, &bank, order.as_slice()) {
            Ok((lists, runs)) => Ok(Series {
                bank,
                order,
                lists,
                runs,
            }),
            Err(_) => Err((bank, order)),
        }
    }

    /// The tables by their numbers.
    pub fn bank(&self) -> &Bank
        ensures { result.now ≡ self.now.tables }
    {
        &self.bank
    }

    /// The numbers of the tables, in the order in which they are set.
    pub fn order(&self) -> &[u32]
        ensures { result.now ≡ self.now.order }
    {
        self.order.as_slice()
    }

    /// Sets what the tables of the order drive, one after another.
    pub fn set_all(&self, nets: &mut Row3)
        requires within { All (λ t. AreNetsWithin t nets.old) self.now.tables }
        ensures { nets.new ≡ after_tables self.now.tables nets.old self.now.order }
    {
        let runs = self.runs.as_slice();
        set_runs(runs, &self.lists, &self.bank, self.order.as_slice(), nets);
    }

    /// The same where each table finds its inputs known. It reads shorter words.
    pub fn set_all_known(&self, nets: &mut Row3)
        requires within { All (λ t. AreNetsWithin t nets.old) self.now.tables }
        requires known { FindsKnown (in_table_order self.now.tables self.now.order) nets.old }
        ensures { nets.new ≡ after_tables self.now.tables nets.old self.now.order }
    {
        let runs = self.runs.as_slice();
        set_known_runs(runs, &self.lists, &self.bank, self.order.as_slice(), nets);
    }
}

// The lists and runs of the tables of a bank in this order.
fn lists_of(alloc: Global, bank: &Bank, order: &[u32]) -> Result<(Lists, Vec<Run>), AllocError>
    requires { All (λ k. k < length bank.now) order.now }
    ensures { IfOk result (λ made. AreRuns (shelves_of made.0)
        (in_table_order bank.now order.now) 0
        made.1.items) }
{
    let mut lists = Lists::new(alloc);
    let mut runs = Vec::new(alloc);
    add_from(&mut lists, &mut runs, bank, order, 0)?;
    Ok((lists, runs))
}
