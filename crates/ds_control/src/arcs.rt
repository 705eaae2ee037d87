//! The arcs of the required orders.
ghost use Rattle.std.specs.Prelude.{◌≡◌, ◌+◌, ◌*◌, ◌<◌, ◌≤◌, ◌++◌, All, IfOk, OnErr, OnOk};
ghost use Rattle.ds_control.specs.Orders.{AreListed, edge_arcs, freeing_arc, node_arcs};
ghost use Rattle.ds_control.specs.Orders.{reading_arc, tokens_after as tokens_of};
ghost use Rattle.ds_control.specs.Part.{PushesPart};

use ds_base::{EventId, LatchId};
use ds_latch::{DataEdge, Latches, Node};
use ds_marked::Arc;
use std::alloc::{AllocError, Global};

// An arc for each required order.
pub(crate) fn arcs(alloc: Global, latches: &Latches<'_>) -> Result<Vec<Arc>, AllocError>
    ensures { IfOk result (λ arcs. AreListed latches.now arcs.items) }
{
    let edges = latches.edges();
    let mut arcs = Vec::new(alloc);
    push_node_arcs(latches.nodes() as u32, &mut arcs)?;
    push_edge_arcs(latches.slack(), edges, &mut arcs)?;
    Ok(arcs)
}

/// Of each node, of which there are so many: it closes after it opened, and opens again after it
/// closed.
pub fn push_node_arcs(nodes: u32, arcs: &mut Vec<Arc>) -> Result<(), AllocError>
    requires { nodes ≤ 1048576 }
    ensures ok { OnOk result (arcs.new.items ≡ arcs.old.items ++ node_arcs nodes) }

    // For want of memory.
    ensures part { OnErr result (PushesPart arcs.old.items arcs.new.items (node_arcs nodes)) }
{
    for i in 0..nodes {
        let node = LatchId::new(i);
        arcs.push(arc(opening(node), closing(node), 0))?;
        arcs.push(arc(closing(node), opening(node), 1))?;
    }
    Ok(())
}

// Of each data edge: the consumer opens after the producer, which opens again after it closed.
fn push_edge_arcs(slack: u8, edges: &[DataEdge], arcs: &mut Vec<Arc>) -> Result<(), AllocError>
    requires low { slack ≤ 15 }
    requires few { All (λ e. (e.producer ≤ 1048576) × (e.consumer ≤ 1048576)) edges.now }
    ensures { OnOk result (arcs.new.items ≡ arcs.old.items ++ edge_arcs slack edges.now) }
{
    for edge in edges {
        arcs.push(reading(edge))?;
        arcs.push(freeing(slack, edge))?;
    }
    Ok(())
}

// The consumer opens after its producer opened.
fn reading(edge: &DataEdge) -> Arc
    requires { (edge.now.producer ≤ 1048576) × (edge.now.consumer ≤ 1048576) }
    ensures { result ≡ reading_arc edge.now }
{
    let tokens = tokens_after(edge.producer);
    arc(opening(edge.producer), opening(edge.consumer), tokens)
}

// The producer opens again after its consumer closed.
fn freeing(slack: u8, edge: &DataEdge) -> Arc
    requires low { slack ≤ 15 }
    requires few { (edge.now.producer ≤ 1048576) × (edge.now.consumer ≤ 1048576) }
    ensures { result ≡ freeing_arc slack edge.now }
{
    let tokens = slack + 1 - tokens_after(edge.producer);
    arc(closing(edge.consumer), opening(edge.producer), tokens)
}

/// The tokens with which the consumers of a node open after it: one where it is a slave.
pub fn tokens_after(producer: LatchId) -> u8
    ensures value { result ≡ tokens_of producer }
    ensures low { result ≤ 1 }
{
    Node::of(producer).open_tokens()
}

/// An arc by its parts.
pub fn arc(source: EventId, target: EventId, tokens: u8) -> Arc
    ensures { result ≡ record { source = source; target = target; tokens = tokens } }
{
    Arc {
        source,
        target,
        tokens,
    }
}

/// The event that opens a node.
pub fn opening(node: LatchId) -> EventId
    requires { node ≤ 1048576 }
    ensures { result ≡ 2 * node }
{
    EventId::new(2 * node.number())
}

/// The event that closes a node.
pub fn closing(node: LatchId) -> EventId
    requires { node ≤ 1048576 }
    ensures { result ≡ 2 * node + 1 }
{
    EventId::new(2 * node.number() + 1)
}
