//! Links as edges between nets, and the ranks of the nets along them.
ghost use Rattle.std.specs.Prelude.{◌≡◌, ◌<◌, ◌^◌, ◌++◌, length, replicate, All, Err, IfOk, OnOk};
ghost use Rattle.ds_netlist.specs.Edges.{FeedsIn, edges_into, edges_of};
ghost use Rattle.ds_rank.specs.Order.{IsCycle};
ghost use Rattle.ds_feedback.specs.Links.{RiseAlong};

use ds_base::{NetId, OutOfMemory};
use ds_design::Gate;
use ds_rank::{Edge, OrderFault, least_ranks};
use std::alloc::Global;

// Numbers of the nets that rise along each link, or a cycle.
pub(crate) fn ranks_of(alloc: Global, links: &[Gate], nets: usize) -> Result<Vec<u64>, OrderFault>
    requires within { All (λ t. All (λ net. net < nets) t.table.inputs × (t.output < nets))
        links.now }
    requires few { nets < 2 ^ 32 }
    ensures ok { IfOk result (λ ranks. RiseAlong links.now nets ranks.items) }
    ensures cycle { (nodes : _) → result ≡ Err (OrderFault.Cycle nodes)
        → IsCycle (FeedsIn links.now) nodes.items }
{
    let edges = edges(alloc, links)?;
    let floors = zeros(alloc, nets)?;
    least_ranks(alloc, floors.as_slice(), edges.as_slice())
}

// Zeros.
fn zeros(alloc: Global, count: usize) -> Result<Vec<u64>, OutOfMemory>
    ensures { IfOk result (λ v. v.items ≡ replicate count 0) }
{
    Ok(vec![in alloc; 0; count]?)
}

// The edges of all links.
fn edges(alloc: Global, links: &[Gate]) -> Result<Vec<Edge>, OutOfMemory>
    ensures ok { IfOk result (λ v. v.items ≡ edges_of links.now) }
{
    let mut edges: Vec<Edge> = Vec::new(alloc);
    for link in links {
        push_edges(&mut edges, link.table.inputs(), link.output)?;
    }
    Ok(edges)
}

// Adds an edge from each of the nets to the output.
fn push_edges(edges: &mut Vec<Edge>, nets: &[NetId], output: NetId) -> Result<(), OutOfMemory>
    ensures ok { OnOk result (edges.new.items ≡ edges.old.items ++ edges_into output nets.now) }
{
    for net in nets {
        edges.push(edge(*net, output))?;
    }
    Ok(())
}

// The edge from a net to another.
fn edge(source: NetId, target: NetId) -> Edge
    ensures value { result ≡ record { source = source; target = target } }
{
    Edge {
        source: source.number(),
        target: target.number(),
    }
}
