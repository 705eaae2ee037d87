//! An order of tables and registers, where no register feeds back.
ghost use Rattle.std.specs.Prelude.{◌⊎◌, ◌≤◌, ◌^◌, length, IfOk, MatchOption};
ghost use Rattle.ds_feedback.specs.Links.{links};
ghost use Rattle.ds_feedback.specs.Sequence.{HasFeedback, IsSequence};

use crate::edges::ranks_of;
use crate::links::links_of;
use crate::order::order_of;
use ds_base::OutOfMemory;
use ds_design::{Gate, Netlist};
use ds_rank::OrderFault;
use std::alloc::Global;

/// The places of the tables, and behind those of all tables the places of the registers, in an
/// order in which each comes behind those that drive what it reads. There is none where a register
/// feeds back, or where there are 2^32 tables and registers or more.
pub fn sequence(alloc: Global, netlist: &Netlist) -> Result<Option<Vec<u32>>, OutOfMemory>
    ensures ok { IfOk result (λ found. MatchOption found
        (HasFeedback netlist.now ⊎ (2 ^ 32 ≤ length (links netlist.now)))
        (λ order. IsSequence netlist.now order.items)) }
{
    let design = netlist.design();
    let links = links_of(alloc, design)?;
    let links = links.as_slice();
    if links.len() >= 0x1_0000_0000 {
        return Ok(None);
    }
    match ranks_of(alloc, links, design.nets().len()) {
        Ok(ranks) => Ok(Some(order_of(alloc, links, ranks.as_slice())?)),
        Err(OrderFault::Cycle(_)) => Ok(None),
        Err(OrderFault::Memory) => Err(OutOfMemory),
    }
}
