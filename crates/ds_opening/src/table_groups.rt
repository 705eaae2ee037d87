//! Groups of tables, the groups of each cone, and the slots that each group reads.
ghost use Rattle.std.specs.Prelude.{◌≡◌, ◌<◌, ◌^◌, ℕ, All, Contains, IfOk, List, [], length};
ghost use Rattle.std.specs.Prelude.{slice_index_or};
ghost use Rattle.ds_cover.specs.Bank.{AreNetsWithin, after_tables};
ghost use Rattle.ds_cover.specs.Series.{FindsKnown, in_table_order};
ghost use Rattle.ds_settle.specs.Cone.{IsCone};
ghost use Rattle.ds_opening.specs.Classes.{AreClasses, HasTables};
ghost use Rattle.ds_opening.specs.Groups.{AreGroupsOf, group_of};
ghost use Rattle.ds_opening.specs.Lacking.{AreByLacking};
ghost use Rattle.ds_opening.specs.Reads.{AreReads};

use crate::classes::classes_of;
use crate::lacking::by_lacking;
use crate::lists::lists_of;
use crate::members::scheduled_members;
use crate::reads::{are_large, reads_of};
use crate::table_numbers::{TableNumbers, numbered};
use ds_base::{NetId, OutOfMemory, Row3, Seq};
use ds_cover::Selections;
use ds_design::Netlist;
use ds_settle::Cone;
use std::alloc::Global;
use std::marker::Model;

/// The tables of each group, ready to be set, the numbers of each cone's groups, and the slots that
/// each group reads. Contracts see the packed tables of the netlist and the three lists.
pub struct TableGroups<'n> {
    selections: Selections<'n>,
    lists: Vec<Seq<u32>>,
    reads: Vec<Seq<usize>>,
    has_reads: bool,
}

impl<'n> Drop for TableGroups<'n> {
    fn drop(self) {
        let TableGroups {
            selections: _,
            lists: _,
            reads: _,
            has_reads: _,
        } = self;
    }
}

impl<'n> Model for TableGroups<'n> {
    ghost use Rattle.ds_opening.specs.Groups.{Grouping};

    ghost Value = { Grouping };

    ghost view = { λ g. record {
      bank = g.selections.tables;
      groups = g.selections.lists;
      lists = g.lists.items;
      reads = g.reads.items;
    } };
}

impl<'n> TableGroups<'n> {
    /// The groups of the tables of these cones. What a group drives is the slot with its number,
    /// and these other lists of nets are the slots behind. The cones are taken, so that none of
    /// them is kept once the lists of groups are there.
    pub fn of(
        alloc: Global,
        netlist: &'n Netlist,
        cones: Vec<Cone>,
        others: &[Seq<NetId>],
    ) -> Result<Self, OutOfMemory>
        requires cones { All (λ cone. (these : List ℕ) × IsCone netlist.now these cone)
            cones.items }
        requires others { All (λ these. All (λ net. net < length netlist.now.nets) these)
            others.now }
        ensures ok { IfOk result (AreGroupsOf netlist.now cones.items) }
        ensures reads { IfOk result (AreReads netlist.now others.now) }
    {
        let design = netlist.design();
        let tables = design.tables().len();
        let order = netlist.order();
        let numbers = numbers_of(alloc, cones.as_slice(), order, tables)?;
        let lists = lists_of(alloc, cones.as_slice(), &numbers)?;
        drop(cones);
        let groups = scheduled_members(alloc, netlist, &numbers)?;
        drop(numbers);
        let reads = reads_of(alloc, design, groups.as_slice(), others)?;
        let selections = Selections::of(alloc, netlist.bank(), groups.as_slice())?;
        Ok(TableGroups {
            selections,
            lists,
            reads,
            has_reads: are_large(groups.len(), tables),
        })
    }

    /// How many groups there are.
    pub fn count(&self) -> usize
        ensures value { result ≡ length self.now.groups }
        ensures few { result < 2 ^ 63 }
    {
        self.selections.count()
    }

    /// Sets what the tables of a group drive, one after another.
    pub fn set(&self, number: usize, nets: &mut Row3)
        requires number { number < length self.now.groups }
        requires within { All (λ t. AreNetsWithin t nets.old) self.now.bank }
        ensures { nets.new ≡ after_tables self.now.bank nets.old (group_of self.now number) }
    {
        self.selections.set(number, nets);
    }

    /// The same where each table finds its inputs known.
    pub fn set_known(&self, number: usize, nets: &mut Row3)
        requires number { number < length self.now.groups }
        requires within { All (λ t. AreNetsWithin t nets.old) self.now.bank }
        requires known { FindsKnown (in_table_order self.now.bank (group_of self.now number))
            nets.old }
        ensures { nets.new ≡ after_tables self.now.bank nets.old (group_of self.now number) }
    {
        self.selections.set_known(number, nets);
    }

    /// The groups of a cone.
    pub fn of_cone(&self, cone: usize) -> &[u32]
        requires { cone < length self.now.lists }
        ensures { result.now ≡ slice_index_or self.now.lists cone [] }
    {
        self.lists[cone].as_slice()
    }

    /// Whether it is known of some group what it reads.
    pub fn has_reads(&self) -> bool {
        self.has_reads
    }

    /// The slots that a group reads; with its own among them, it may read what is in no slot.
    pub fn reads(&self, number: usize) -> &[usize]
        requires { number < length self.now.reads }
        ensures { result.now ≡ slice_index_or self.now.reads number [] }
    {
        self.reads[number].as_slice()
    }
}

// A number for each table, the same where the same cones have them, by how many cones lack it.
fn numbers_of(
    alloc: Global,
    cones: &[Cone],
    order: &[u32],
    tables: usize,
) -> Result<TableNumbers, OutOfMemory>
    requires cones { All (HasTables tables) cones.now }
    requires order { All (λ k. k < tables) order.now }
    requires all { (k : ℕ) → k < tables → Contains order.now k }
    requires few { length order.now < 2 ^ 32 }

    ensures ok { IfOk result (λ v. AreClasses cones.now tables v.of.items) }
    ensures below { IfOk result (λ v. All (λ n. n < v.count) v.of.items) }
    ensures rising { IfOk result (λ v. AreByLacking cones.now v.of.items) }
{
    let classes = classes_of(alloc, cones, tables)?;
    let sorted = by_lacking(alloc, cones, order, tables)?;
    numbered(alloc, &classes, sorted.as_slice())
}
