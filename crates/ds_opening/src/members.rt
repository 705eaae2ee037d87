//! The tables of each group.
ghost use Rattle.std.specs.Prelude.{◌≡◌, ◌<◌, All, IfOk, List, [], length, replicate};
ghost use Rattle.ds_opening.specs.Members.{AreMembers};
ghost use Rattle.ds_opening.specs.Scheduled.{AreGroupMembers};

use crate::schedule::scheduled;
use crate::table_numbers::TableNumbers;
use ds_base::{OutOfMemory, Seq};
use ds_design::Netlist;
use std::alloc::Global;

/// The tables with each number, each behind those of its number that it reads, and in few runs of
/// a kind.
pub(crate) fn scheduled_members(
    alloc: Global,
    netlist: &Netlist,
    numbers: &TableNumbers,
) -> Result<Vec<Seq<u32>>, OutOfMemory>
    requires long { length numbers.now.of.items ≡ length netlist.now.tables }
    requires below { All (λ n. n < numbers.now.count) numbers.now.of.items }
    ensures ok { IfOk result
        (λ v. AreGroupMembers netlist.now numbers.now.of.items numbers.now.count v.items) }
{
    let order = scheduled(alloc, netlist, numbers)?;
    members_of(alloc, order.as_slice(), numbers)
}

// The tables with each number, in this order.
fn members_of(
    alloc: Global,
    order: &[u32],
    numbers: &TableNumbers,
) -> Result<Vec<Seq<u32>>, OutOfMemory>
    requires within { All (λ k. k < length numbers.now.of.items) order.now }
    requires below { All (λ n. n < numbers.now.count) numbers.now.of.items }
    ensures ok { IfOk result
        (λ v. AreMembers order.now numbers.now.of.items numbers.now.count v.items) }
{
    let mut lists = empty_lists(alloc, numbers.count)?;
    for table in order {
        lists[numbers.of[*table as usize] as usize].push(*table)?;
    }
    Ok(lists)
}

// So many lists of no tables.
fn empty_lists(alloc: Global, count: usize) -> Result<Vec<Seq<u32>>, OutOfMemory>
    ensures ok { IfOk result (λ lists. lists.items ≡ replicate count []) }
{
    let mut lists = Vec::with_capacity(alloc, count)?;
    for _list in 0..count {
        lists.push(Seq::new(alloc))?;
    }
    Ok(lists)
}
