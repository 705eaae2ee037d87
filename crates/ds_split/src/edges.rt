//! The data edges of a split design.
ghost use Rattle.std.specs.Prelude.{◌≡◌, ◌<◌, ◌+◌, ◌*◌, length, IfOk, IfErr, OnOk};
ghost use Rattle.ds_split.specs.Edges.{AreEdges, IsFoundBelow};
ghost use Rattle.ds_split.specs.Nets.{AreNodes};
ghost use Rattle.ds_split.specs.Split.{split_into, IsSplitFault};

use crate::edge_search::EdgeSearch;
use crate::producers::producers_of;
use crate::{Clusters, SplitFault};
use ds_base::{Limit, NetId, OutOfMemory, Seq};
use ds_design::Netlist;
use ds_latch::{DataEdge, Node};
use ds_settle::Finder;
use std::alloc::Global;

// The data edges, those into one node after another. `nets` are those of the nodes. It ends as soon
// as there are too many.
pub(crate) fn edges_of(
    alloc: Global,
    netlist: &Netlist,
    clusters: &Clusters,
    nets: &[Seq<NetId>],
) -> Result<Seq<DataEdge>, SplitFault>
    requires { AreNodes netlist.now clusters.now nets.now }
    ensures ok { IfOk result (AreEdges (split_into netlist.now clusters.now)) }
    ensures fault { IfErr result (IsSplitFault (split_into netlist.now clusters.now)) }
{
    let mut finder = Finder::of(alloc, netlist)?;
    edges_by(alloc, netlist, clusters, nets, &mut finder)
}

// The data edges, by a finder of the netlist.
fn edges_by(
    alloc: Global,
    netlist: &Netlist,
    clusters: &Clusters,
    nets: &[Seq<NetId>],
    finder: &mut Finder<'_>,
) -> Result<Seq<DataEdge>, SplitFault>
    requires nodes { AreNodes netlist.now clusters.now nets.now }
    requires finder { finder.old ≡ netlist.now }
    ensures ok { IfOk result (AreEdges (split_into netlist.now clusters.now)) }
    ensures fault { IfErr result (IsSplitFault (split_into netlist.now clusters.now)) }
{
    let most = 524_288 - nets.len();
    let mut search = begin(alloc, netlist, clusters, nets, finder)?;
    for i in 0..clusters.members().len() {
        if search.len() > most {
            return Err(SplitFault::TooMany(Limit::Arcs));
        }
        add(alloc, netlist, clusters, nets, finder, &mut search, i)?;
    }
    if search.len() > most {
        return Err(SplitFault::TooMany(Limit::Arcs));
    }
    Ok(Seq::of(search.into_edges()))
}

// Finds the edges into OUT.
fn begin(
    alloc: Global,
    netlist: &Netlist,
    clusters: &Clusters,
    nets: &[Seq<NetId>],
    finder: &mut Finder<'_>,
) -> Result<EdgeSearch, OutOfMemory>
    requires nodes { AreNodes netlist.now clusters.now nets.now }
    requires finder { finder.old ≡ netlist.now }
    ensures ok { IfOk result (IsFoundBelow (split_into netlist.now clusters.now) 2) }
    ensures same { finder.new ≡ finder.old }
{
    let producers = producers_of(alloc, netlist, clusters, nets)?;
    let mut search = EdgeSearch::new(alloc, producers, nets.len())?;
    search.consume(alloc, finder, nets[1].as_slice(), 1)?;
    Ok(search)
}

// Finds the edges into the master of a cluster, and from it to its slave.
fn add(
    alloc: Global,
    netlist: &Netlist,
    clusters: &Clusters,
    nets: &[Seq<NetId>],
    finder: &mut Finder<'_>,
    search: &mut EdgeSearch,
    i: usize,
) -> Result<(), OutOfMemory>
    requires nodes { AreNodes netlist.now clusters.now nets.now }
    requires finder { finder.old ≡ netlist.now }
    requires inside { i < length clusters.now }
    requires search { IsFoundBelow (split_into netlist.now clusters.now) (2 * i + 2) search.old }
    ensures ok { OnOk result
        (IsFoundBelow (split_into netlist.now clusters.now) (2 * i + 4) search.new) }
    ensures same { finder.new ≡ finder.old }
{
    let master = Node::Master(i as u32).latch();
    search.consume(
        alloc,
        finder,
        nets[master.index()].as_slice(),
        master.number(),
    )?;
    search.push(master.number(), Node::Slave(i as u32).latch().number())?;
    Ok(())
}
