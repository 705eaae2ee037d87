//! The latch graph of a netlist and its clusters.
ghost use Rattle.std.specs.Prelude.{◌≡◌, ◌<◌, length, map, IfOk, IfErr};
ghost use Rattle.ds_design.specs.Accepted.{IsAccepted};
ghost use Rattle.ds_design.specs.Circuit.{initial_value};
ghost use Rattle.ds_design.specs.InRange.{IsInRange};
ghost use Rattle.ds_split.specs.Cluster.{HasEachOnce};
ghost use Rattle.ds_split.specs.Edges.{AreEdges};
ghost use Rattle.ds_split.specs.Nets.{AreNodes};
ghost use Rattle.ds_split.specs.Split.{split_into, IsSplitFault};

use crate::edges::edges_of;
use crate::nets::node_nets;
use crate::{Clusters, SplitFault};
use ds_base::{Limit, NetId, OutOfMemory, RegId, Row3, Seq};
use ds_design::{Netlist, Register};
use ds_latch::{DataEdge, Latches};
use ds_settle::set_initial;
use std::alloc::Global;

/// A netlist split into a master and a slave latch for each cluster, with the registers' initial
/// values. The data edges stand by their consumers, in the order of the nodes. `TooMany(Arcs)`
/// where the required orders, two for each node and two for each data edge, are more than
/// 1,048,576.
pub fn split<'a>(
    alloc: Global,
    netlist: &'a Netlist,
    clusters: &Clusters,
) -> Result<Latches<'a>, SplitFault>
    requires { HasEachOnce (length netlist.now.registers) clusters.now }

    ensures ok { IfOk result (λ latches. latches ≡ split_into netlist.now clusters.now) }

    ensures fault { IfErr result (IsSplitFault (split_into netlist.now clusters.now)) }
{
    if clusters.members().len() as u64 >= Limit::Arcs.most() / 4 {
        return Err(SplitFault::TooMany(Limit::Arcs));
    }
    let initial = initial_values(alloc, netlist.design().registers())?;
    let members = copied(alloc, clusters.members())?;
    let (nets, edges) = nets_and_edges(alloc, netlist, clusters)?;
    Ok(Latches::of(netlist, initial, members, nets, edges))
}

// The nets of the nodes, and the data edges.
fn nets_and_edges(
    alloc: Global,
    netlist: &Netlist,
    clusters: &Clusters,
) -> Result<(Seq<Seq<NetId>>, Seq<DataEdge>), SplitFault>
    requires design { IsInRange netlist.now × IsAccepted netlist.now }
    requires each_once { HasEachOnce (length netlist.now.registers) clusters.now }
    requires few { length clusters.now < 262144 }
    ensures ok { IfOk result (λ r. AreNodes netlist.now clusters.now r.0
        × AreEdges (split_into netlist.now clusters.now) r.1) }
    ensures fault { IfErr result (IsSplitFault (split_into netlist.now clusters.now)) }
{
    let nets = node_nets(alloc, netlist, clusters)?;
    let edges = edges_of(alloc, netlist, clusters, nets.as_slice())?;
    Ok((nets, edges))
}

// The values that the registers start at.
fn initial_values(alloc: Global, registers: &[Register]) -> Result<Row3, OutOfMemory>
    ensures { IfOk result (λ row. row ≡ map (λ r. initial_value r.initial) registers.now) }
{
    let mut row = Row3::with_len(alloc, registers.len())?;
    set_initial(registers, &mut row);
    Ok(row)
}

// The same clusters.
fn copied(alloc: Global, clusters: &[Seq<RegId>]) -> Result<Seq<Seq<RegId>>, OutOfMemory>
    ensures { IfOk result (λ copy. copy ≡ clusters.now) }
{
    let mut copy = Vec::new(alloc);
    for cluster in clusters {
        copy.push(Seq::of(cluster.as_slice().to_vec(alloc)?))?;
    }
    Ok(Seq::of(copy))
}
