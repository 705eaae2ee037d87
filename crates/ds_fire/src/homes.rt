//! Where the values of nets are kept.
ghost use Rattle.std.specs.Prelude.{◌≡◌, ◌<◌, ◌^◌, ℕ, All, IfOk, length};
ghost use Rattle.ds_design.specs.InRange.{IsInRange};
ghost use Rattle.ds_latch.specs.Node.{nodes};
ghost use Rattle.ds_latch.specs.Plan.{IsSplit};
ghost use Rattle.ds_fire.specs.Feeds.{AreSourceHomes, AreSourceNetsPlaced, IsSourceNetPlacedOrKept};
ghost use Rattle.ds_fire.specs.Feeds.{home_of};

use ds_base::{NetId, OutOfMemory};
use ds_latch::{Latches, Node};
use std::alloc::Global;

// A node, and a place in its rows.
#[derive(Clone, Copy)]
pub(crate) struct NetHome {
    pub(crate) node: u32,
    pub(crate) bit: usize,
}

// For each net of IN or of a slave, where its value is kept.
pub(crate) fn homes_of(alloc: Global, latches: &Latches) -> Result<Vec<NetHome>, OutOfMemory>
    requires few { nodes latches.now < 2 ^ 32 }
    requires design { IsInRange latches.now.circuit × IsSplit latches.now }
    ensures { IfOk result (λ v. AreSourceHomes latches.now v.items) }
{
    let nets = latches.netlist().design().nets().len();
    let bits = latches.bits();
    let mut homes = no_homes(alloc, nets)?;
    place(bits[0].as_slice(), 0, &mut homes);
    for i in 0..latches.clusters().len() {
        let slave = Node::Slave(i as u32).latch();
        place(bits[slave.index()].as_slice(), slave.number(), &mut homes);
    }
    Ok(homes)
}

// For so many nets, before any is placed.
fn no_homes(alloc: Global, nets: usize) -> Result<Vec<NetHome>, OutOfMemory>
    ensures { IfOk result (λ v. length v.items ≡ nets) }
{
    Ok(vec![in alloc; NetHome { node: 0, bit: 0 }; nets]?)
}

// These nets are those of a node.
fn place(bits: &[NetId], node: u32, homes: &mut Vec<NetHome>)
    requires { All (λ net. net < length homes.old.items) bits.now }
    ensures same { length homes.new.items ≡ length homes.old.items }
    ensures placed { AreSourceNetsPlaced bits.now node homes.new.items }
    ensures kept { (net : ℕ) → IsSourceNetPlacedOrKept bits.now node net
        (home_of homes.old.items net) (home_of homes.new.items net) }
{
    for (bit, net) in bits.iter().enumerate() {
        homes[net.index()] = NetHome { node, bit };
    }
}
