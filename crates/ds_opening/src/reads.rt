//! The slots that each group reads.
ghost use Rattle.std.specs.Prelude.{◌≡◌, ◌⊎◌, ℕ, ◌+◌, ◌-◌, ◌<◌, ◌≤◌, ◌^◌, All, Contains, IfOk};
ghost use Rattle.std.specs.Prelude.{IsTrue, OnOk, [], ◌∷◌, length, map};
ghost use Rattle.std.specs.List.{range_with_len};
ghost use Rattle.ds_design.specs.InRange.{IsInRange};
ghost use Rattle.ds_opening.specs.Seen.{AreReadsOf, AreSeen, IsReadAt, IsReadBy};

use crate::net_slots::net_slots_of;
use ds_base::{NetId, OutOfMemory, Seq};
use ds_design::Design;
use std::alloc::Global;

// A design, and for each of its nets a slot that has it, or `usize::MAX`.
#[derive(Drop)]
struct Assigned<'n> {
    design: &'n Design,
    net_slots: Vec<usize>,
}

/// The slots that each of these groups reads, or its own alone where it reads what is in no slot,
/// or where the groups are not large.
pub(crate) fn reads_of(
    alloc: Global,
    design: &Design,
    groups: &[Seq<u32>],
    others: &[Seq<NetId>],
) -> Result<Vec<Seq<usize>>, OutOfMemory>
    requires in_range { IsInRange design.now }
    requires groups { All (λ these. All (λ k. k < length design.now.tables) these) groups.now }
    requires others { All (λ these. All (λ net. net < length design.now.nets) these) others.now }
    ensures ok { IfOk result (λ v. AreReadsOf design.now others.now groups.now v.items) }
{
    if !are_large(groups.len(), design.tables().len()) {
        return own_lists(alloc, groups.len());
    }
    let net_slots = net_slots_of(alloc, design, groups, others)?;
    let assigned = Assigned { design, net_slots };
    let mut seen: Vec<usize> = vec![in alloc; 0; groups.len() + others.len()]?;
    let mut reads = Vec::with_capacity(alloc, groups.len())?;
    for (own, group) in groups.iter().enumerate() {
        reads.push(read_by(alloc, &assigned, group.as_slice(), &mut seen, own)?)?;
    }
    Ok(reads)
}

/// Whether so many groups of so many tables have four tables or more on average. To set a smaller
/// group takes no longer than to look at what it reads.
pub(crate) fn are_large(groups: usize, tables: usize) -> bool {
    groups <= tables / 4
}

// For each of so many groups its own slot.
fn own_lists(alloc: Global, count: usize) -> Result<Vec<Seq<usize>>, OutOfMemory>
    ensures ok { IfOk result
        (λ lists. lists.items ≡ map (λ own. own ∷ []) (range_with_len 0 count)) }
{
    let mut lists = Vec::with_capacity(alloc, count)?;
    for own in 0..count {
        lists.push(own_list(alloc, own)?)?;
    }
    Ok(lists)
}

// This slot alone.
fn own_list(alloc: Global, own: usize) -> Result<Seq<usize>, OutOfMemory>
    ensures ok { IfOk result (λ list. list ≡ own ∷ []) }
{
    let mut list = Seq::new(alloc);
    list.push(own)?;
    Ok(list)
}

// The slots that the tables of a group read, or its own. Where a slot was found its place in `seen`
// is one more than the group's own.
fn read_by(
    alloc: Global,
    assigned: &Assigned,
    tables: &[u32],
    seen: &mut Vec<usize>,
    own: usize,
) -> Result<Seq<usize>, OutOfMemory>
    requires tables { All (λ k. k < length assigned.now.design.now.tables) tables.now }
    requires nets { length assigned.now.net_slots.items ≡ length assigned.now.design.now.nets }
    requires net_slots { All (λ s. (s < length seen.old.items) ⊎ (s ≡ 2 ^ 64 - 1))
        assigned.now.net_slots.items }
    requires own { own < length seen.old.items }
    requires unseen { All (λ s. s < own + 1) seen.old.items }

    ensures ok { IfOk result (IsReadBy assigned.now.design.now assigned.now.net_slots.items
        (length seen.old.items) own tables.now) }
    ensures same { OnOk result (length seen.new.items ≡ length seen.old.items) }
    ensures seen { OnOk result (All (λ s. s ≤ own + 1) seen.new.items) }
{
    let gates = assigned.design.tables();
    let mut list = Seq::new(alloc);
    seen[own] = own + 1;
    for table in tables {
        let inputs = gates[*table as usize].table.inputs();
        if !add_slots(assigned.net_slots.as_slice(), inputs, seen, own, &mut list)? {
            return own_list(alloc, own);
        }
    }
    Ok(list)
}

// Adds the slots of these nets that are not seen, and says whether each has one.
fn add_slots(
    net_slots: &[usize],
    nets: &[NetId],
    seen: &mut Vec<usize>,
    own: usize,
    list: &mut Seq<usize>,
) -> Result<bool, OutOfMemory>
    requires nets { All (λ net. net < length net_slots.now) nets.now }
    requires net_slots { All (λ s. (s < length seen.old.items) ⊎ (s ≡ 2 ^ 64 - 1)) net_slots.now }
    requires own { own < length seen.old.items }
    requires seen { AreSeen own seen.old.items list.old }

    ensures all { IfOk result
        (λ all. IsTrue all → All (IsReadAt net_slots.now own list.new) nets.now) }
    ensures seen { OnOk result (AreSeen own seen.new.items list.new) }
    ensures same { OnOk result (length seen.new.items ≡ length seen.old.items) }
    ensures kept { OnOk result ((s : ℕ) → Contains list.old s → Contains list.new s) }
{
    for net in nets {
        let net_slot = net_slots[net.index()];
        if net_slot == usize::MAX {
            return Ok(false);
        }
        if seen[net_slot] != own + 1 {
            seen[net_slot] = own + 1;
            list.push(net_slot)?;
        }
    }
    Ok(true)
}
