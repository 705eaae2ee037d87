//! The group of each register.
ghost use Rattle.std.specs.Prelude.{◌<◌, length, All, Contains, IfOk};
ghost use Rattle.ds_design.specs.Groups.{AreDisjoint};
ghost use Rattle.ds_split.specs.Keyed.{AreHolders};
ghost use Rattle.ds_split.specs.Nets.{AreMarked};

use ds_base::{RegId, Seq};
use std::alloc::{AllocError, Global};

/// For each of so many registers the group that has it, one more than its place; 0 where none has.
pub(crate) fn holders_of(
    alloc: Global,
    count: usize,
    groups: &[Seq<RegId>],
) -> Result<Vec<usize>, AllocError>
    requires { AreDisjoint count groups.now }
    ensures { IfOk result (λ holders.
        AreHolders count (length groups.now) groups.now holders.items) }
{
    let mut holders = vec![in alloc; 0; count]?;
    for i in 0..groups.len() {
        hold(&mut holders, groups[i].as_slice(), i + 1);
    }
    Ok(holders)
}

// Marks these registers.
fn hold(holders: &mut Vec<usize>, registers: &[RegId], mark: usize)
    requires { All (λ r. r < length holders.old.items) registers.now }
    ensures { AreMarked (Contains registers.now) mark holders.old.items holders.new.items }
{
    for register in registers {
        holders[register.index()] = mark;
    }
}
