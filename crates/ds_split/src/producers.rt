//! The producer of each net.
ghost use Rattle.std.specs.Prelude.{◌≡◌, ◌<◌, length, All, Contains, replicate, IfOk};
ghost use Rattle.ds_split.specs.Nets.{AreNodes, AreNetProducers, AreMarked};
ghost use Rattle.ds_split.specs.Split.{split_into};

use crate::Clusters;
use ds_base::{NetId, OutOfMemory, Seq};
use ds_design::Netlist;
use ds_latch::Node;
use std::alloc::Global;

// The producer of each net, one more than its number; 0 where there is none. `nets` are those of
// the nodes.
pub(crate) fn producers_of(
    alloc: Global,
    netlist: &Netlist,
    clusters: &Clusters,
    nets: &[Seq<NetId>],
) -> Result<Vec<u32>, OutOfMemory>
    requires { AreNodes netlist.now clusters.now nets.now }
    ensures { IfOk result (λ producers.
        AreNetProducers (split_into netlist.now clusters.now) producers.items) }
{
    let mut producers = zeros(alloc, netlist.design().nets().len())?;
    mark(&mut producers, nets[0].as_slice(), 1);
    for i in 0..clusters.members().len() {
        let slave = Node::Slave(i as u32).latch();
        mark(
            &mut producers,
            nets[slave.index()].as_slice(),
            slave.number() + 1,
        );
    }
    Ok(producers)
}

// So many zeros.
fn zeros(alloc: Global, count: usize) -> Result<Vec<u32>, OutOfMemory>
    ensures { IfOk result (λ zeros. zeros.items ≡ replicate count 0) }
{
    Ok(vec![in alloc; 0; count]?)
}

// Marks these nets.
fn mark(producers: &mut Vec<u32>, nets: &[NetId], mark: u32)
    requires { All (λ net. net < length producers.old.items) nets.now }
    ensures { AreMarked (Contains nets.now) mark producers.old.items producers.new.items }
{
    for net in nets {
        producers[net.index()] = mark;
    }
}
