//! The registers of each line.
ghost use Rattle.std.specs.Prelude.{◌≡◌, ◌<◌, ◌≤◌, ◌+◌, ◌^◌, ℕ, List, [], length};
ghost use Rattle.std.specs.Prelude.{replicate, All, IfOk, OnOk};
ghost use Rattle.ds_design.specs.Groups.{group_at};
ghost use Rattle.ds_groups.specs.Read.{holder};
ghost use Rattle.ds_groups.specs.Members.{members_by};

use crate::holders::Holders;
use ds_base::{OutOfMemory, RegId, Seq};
use std::alloc::Global;

/// For each of so many lines the registers that it has, in their order.
pub(crate) fn members(
    alloc: Global,
    holders: &Holders,
    count: usize,
) -> Result<Seq<Seq<RegId>>, OutOfMemory>
    requires few { length holders.now < 2 ^ 32 }
    requires within { All (λ line. line ≤ count) holders.now }
    ensures { IfOk result (λ groups. groups ≡ members_by holders.now count) }
{
    let mut groups = none(alloc, count)?;
    for i in 0..holders.count() {
        let line = holders.line(i);
        if line > 0 {
            groups[line - 1].push(RegId::new(i as u32))?;
        }
    }
    Ok(Seq::of(groups))
}

// So many groups without registers.
fn none(alloc: Global, count: usize) -> Result<Vec<Seq<RegId>>, OutOfMemory>
    ensures { IfOk result (λ groups. groups.items ≡ replicate count []) }
{
    let mut groups = Vec::new(alloc);
    'adding: while groups.len() < count {
        groups.push(Seq::new(alloc))?;
    }
    Ok(groups)
}
