//! The groups of the tables that the nodes settle.
ghost use Rattle.std.specs.Prelude.{◌≡◌, IfOk};
ghost use Rattle.ds_design.specs.InRange.{IsInRange};
ghost use Rattle.ds_latch.specs.Node.{Split, nets_of};
ghost use Rattle.ds_latch.specs.Plan.{IsSplit};
ghost use Rattle.ds_split.specs.Cones.{AreCones};
ghost use Rattle.ds_opening.specs.Noted.{AreConeGroups, all_learnt_nets, learnt_nets};

use crate::TableGroups;
use ds_base::{LatchId, NetId, OutOfMemory, Seq};
use ds_latch::{Latches, Node};
use ds_settle::Cone;
use std::alloc::Global;

/// The groups of the cones of OUT, M0, M1, .., with what each reads. The cones are taken.
pub fn groups_of<'n>(
    alloc: Global,
    latches: &Latches<'n>,
    cones: Vec<Cone>,
) -> Result<TableGroups<'n>, OutOfMemory>
    requires design { IsInRange latches.now.circuit × IsSplit latches.now }
    requires cones { AreCones latches.now cones.items }
    ensures ok { IfOk result (AreConeGroups latches.now) }
{
    let learnt = learnt_of(alloc, latches)?;
    TableGroups::of(alloc, latches.netlist(), cones, learnt.as_slice())
}

// What others learn of each node.
fn learnt_of(alloc: Global, latches: &Latches<'_>) -> Result<Vec<Seq<NetId>>, OutOfMemory>
    requires { IsSplit latches.now }
    ensures { IfOk result (λ lists. lists.items ≡ all_learnt_nets latches.now) }
{
    let (bits, nodes) = (latches.bits(), latches.nodes());
    let mut lists = Vec::with_capacity(alloc, nodes)?;
    for number in 0..nodes {
        let node = Node::of(LatchId::new(number as u32));
        lists.push(nets_learnt(alloc, node, bits[number].as_slice())?)?;
    }
    Ok(lists)
}

// What others learn of a node, which has these nets.
fn nets_learnt(alloc: Global, node: Node, these: &[NetId]) -> Result<Seq<NetId>, OutOfMemory>
    ensures { IfOk result (λ list. (s : Split) → nets_of s node ≡ these.now
        → list ≡ learnt_nets s node) }
{
    let list = match node {
        Node::In | Node::Slave(_) => Vec::from_slice(alloc, these)?,
        Node::Out | Node::Master(_) => Vec::new(alloc),
    };
    Ok(Seq::of(list))
}
