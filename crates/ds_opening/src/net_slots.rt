//! The slot in which each net is.
ghost use Rattle.std.specs.Prelude.{◌≡◌, ◌++◌, ◌<◌, ◌^◌, All, IfOk, length, map};
ghost use Rattle.ds_settle.specs.Cone.{nets_of_tables};
ghost use Rattle.ds_opening.specs.NetSlots.{AreNetSlots, AreNetsAssigned, IsAssigned};

use ds_base::{NetId, OutOfMemory, Seq};
use ds_design::Design;
use std::alloc::Global;

/// For each net a slot that has it, or `usize::MAX`. What the tables of group a drive is slot a,
/// and the other lists of nets are the slots behind.
pub(crate) fn net_slots_of(
    alloc: Global,
    design: &Design,
    groups: &[Seq<u32>],
    others: &[Seq<NetId>],
) -> Result<Vec<usize>, OutOfMemory>
    requires groups { All (λ these. All (λ k. k < length design.now.tables) these) groups.now }
    requires others { All (λ these. All (λ net. net < length design.now.nets) these) others.now }
    ensures ok { IfOk result (λ v. AreNetSlots
        (map (nets_of_tables design.now) groups.now ++ others.now)
        (length design.now.nets) v.items) }
{
    let mut net_slots: Vec<usize> = vec![in alloc; usize::MAX; design.nets().len()]?;
    assign_groups(&mut net_slots, design, groups);
    assign_others(&mut net_slots, others, groups.len());
    Ok(net_slots)
}

// Gives what the tables of each group drive the number of the group.
fn assign_groups(net_slots: &mut Vec<usize>, design: &Design, groups: &[Seq<u32>])
    requires groups { All (λ these. All (λ k. k < length design.now.tables) these) groups.now }
    requires nets { length net_slots.old.items ≡ length design.now.nets }
    ensures { AreNetsAssigned 0 (map (nets_of_tables design.now) groups.now)
        net_slots.old.items net_slots.new.items }
{
    for (a, group) in groups.iter().enumerate() {
        assign_tables(net_slots, design, group.as_slice(), a);
    }
}

// Gives what these tables drive this slot.
fn assign_tables(net_slots: &mut Vec<usize>, design: &Design, tables: &[u32], slot: usize)
    requires tables { All (λ k. k < length design.now.tables) tables.now }
    requires nets { length net_slots.old.items ≡ length design.now.nets }
    ensures { IsAssigned slot (nets_of_tables design.now tables.now)
        net_slots.old.items net_slots.new.items }
{
    let gates = design.tables();
    for table in tables {
        net_slots[gates[*table as usize].output.index()] = slot;
    }
}

// Gives the nets of these lists the slots from the first on.
fn assign_others(net_slots: &mut Vec<usize>, others: &[Seq<NetId>], first: usize)
    requires others { All (λ these. All (λ n. n < length net_slots.old.items) these) others.now }
    requires few { first < 2 ^ 63 }
    ensures { AreNetsAssigned first others.now net_slots.old.items net_slots.new.items }
{
    for (j, these) in others.iter().enumerate() {
        assign_nets(net_slots, these.as_slice(), first + j);
    }
}

// Gives these nets this slot.
fn assign_nets(net_slots: &mut Vec<usize>, nets: &[NetId], slot: usize)
    requires { All (λ net. net < length net_slots.old.items) nets.now }
    ensures { IsAssigned slot nets.now net_slots.old.items net_slots.new.items }
{
    for net in nets {
        net_slots[net.index()] = slot;
    }
}
