//! The cones of the nodes that settle.
ghost use Rattle.std.specs.Prelude.{◌≡◌, IfOk, OnOk};
ghost use Rattle.ds_design.specs.InRange.{IsInRange};
ghost use Rattle.ds_latch.specs.declared.node.Node.{Node};
ghost use Rattle.ds_latch.specs.Node.{number_of};
ghost use Rattle.ds_latch.specs.Plan.{IsSplit};
ghost use Rattle.ds_split.specs.Cones.{AreCones, HasConeMore, IsConeAt, IsSettlingAt};
ghost use Rattle.ds_split.specs.Cones.{cone_place as place_of_cone};

use ds_base::{LatchId, OutOfMemory};
use ds_latch::{Latches, Node};
use ds_settle::{Cone, Finder};
use std::alloc::Global;

/// The cones of OUT, M0, M1, ..
pub fn cones_of(alloc: Global, latches: &Latches) -> Result<Vec<Cone>, OutOfMemory>
    requires { IsInRange latches.now.circuit × IsSplit latches.now }
    ensures ok { IfOk result (λ v. AreCones latches.now v.items) }
{
    let mut finder = Finder::of(alloc, latches.netlist())?;
    cones_by(alloc, latches, &mut finder)
}

/// The place of the cone of the node with this number, where it settles: OUT, M0, M1, ..
pub fn cone_place(latch: LatchId) -> usize
    ensures { (n : Node) → number_of n ≡ latch → result ≡ place_of_cone n }
{
    match Node::of(latch) {
        Node::In | Node::Out | Node::Slave(_) => 0,
        Node::Master(i) => i as usize + 1,
    }
}

// The cones, by a finder of the netlist.
fn cones_by(alloc: Global, latches: &Latches, finder: &mut Finder) -> Result<Vec<Cone>, OutOfMemory>
    requires design { IsInRange latches.now.circuit × IsSplit latches.now }
    requires finder { finder.old ≡ latches.now.circuit }
    ensures { IfOk result (λ v. AreCones latches.now v.items) }
{
    let mut cones = Vec::with_capacity(alloc, latches.clusters().len() + 1)?;
    add(alloc, latches, finder, Node::Out, &mut cones)?;
    // The nodes are counted for the fact that there are not too many.
    let _nodes = latches.nodes();
    for i in 0..latches.clusters().len() {
        add(alloc, latches, finder, Node::Master(i as u32), &mut cones)?;
    }
    Ok(cones)
}

// Adds the cone of a node.
fn add(
    alloc: Global,
    latches: &Latches,
    finder: &mut Finder,
    node: Node,
    cones: &mut Vec<Cone>,
) -> Result<(), OutOfMemory>
    requires design { IsInRange latches.now.circuit × IsSplit latches.now }
    requires finder { finder.old ≡ latches.now.circuit }
    requires node { (n : Node) × IsSettlingAt latches.now n (number_of node) }
    ensures ok { OnOk result
        (HasConeMore latches.now (number_of node) cones.old.items cones.new.items) }
    ensures same { finder.new ≡ finder.old }
{
    cones.push(cone_of(alloc, latches, finder, node)?)?;
    Ok(())
}

// The cone of a node.
fn cone_of(
    alloc: Global,
    latches: &Latches,
    finder: &mut Finder,
    node: Node,
) -> Result<Cone, OutOfMemory>
    requires design { IsInRange latches.now.circuit × IsSplit latches.now }
    requires finder { finder.old ≡ latches.now.circuit }
    requires node { (n : Node) × IsSettlingAt latches.now n (number_of node) }
    ensures ok { IfOk result (IsConeAt latches.now (number_of node)) }
    ensures same { finder.new ≡ finder.old }
{
    // The nodes are counted for the fact that there are not too many.
    let _nodes = latches.nodes();
    let place = node.latch().index();
    finder.cone(alloc, latches.bits()[place].as_slice())
}
