//! From latches to their expansion, or to its fault.
ghost use Rattle.std.specs.Prelude.{◌≡◌, ◌<◌, ◌≤◌, ◌+◌, ◌*◌, IfErr, IfOk, IsTrue, length, ◌↔◌};
ghost use Rattle.ds_latch.specs.Node.{nodes as nodes_of};
ghost use Rattle.ds_latch.specs.Plan.{IsPlan};
ghost use Rattle.ds_marked.specs.Graph.{IsKept};
ghost use Rattle.ds_control.specs.Control.{IsSimple};
ghost use Rattle.ds_accept.specs.Accept.{IsAcceptable};
ghost use Rattle.ds_shake.specs.Expansion.{IsExpansion, IsShakeFault};
ghost use Rattle.ds_shake.specs.Handshakes.{AreHandshakes};

use crate::arcs::arcs_of;
use crate::events::events_of;
use crate::handshake::handshakes;
use crate::{Handshake, ShakeFault};
use ds_base::{Limit, OutOfMemory};
use ds_latch::Latches;
use ds_marked::Marked;
use std::alloc::Global;

/// The four-phase expansion of the graph of the required orders: the events of the nodes and then
/// those of the data edges, four each, with arcs that carry the orders by a request and an
/// acknowledge. It has at most 65,536 signals, a node, a request or an acknowledge each.
pub fn expand(alloc: Global, latches: &Latches<'_>) -> Result<Marked, ShakeFault>
    // The events and the arcs of the expansion, in order, no two arcs with the same ends.
    ensures ok { IfOk result (IsExpansion latches.now) }
    ensures ok_kept { IfOk result (λ g. IsKept g) }
    ensures ok_simple { IfOk result (λ g. IsSimple g) }
    // It is accepted: by `accept` with no fault, but memory may be wanted.
    ensures ok_plan { IfOk result (IsPlan latches.now) }
    ensures ok_acceptable { IfOk result (IsAcceptable latches.now) }

    // There are more signals than a graph may have, or memory was wanted.
    ensures fault { IfErr result (IsShakeFault latches.now) }
{
    let all = handshakes(alloc, latches)?;
    let nodes = latches.nodes() as u32;
    if are_too_many(nodes, all.as_slice()) {
        return Err(ShakeFault::TooMany(Limit::Signals));
    }
    Ok(expanded(alloc, latches, all.as_slice())?)
}

// Whether nodes, requests and acknowledges are more signals than a graph may have.
fn are_too_many(nodes: u32, all: &[Handshake]) -> bool
    requires { (nodes ≤ 1048576) × (length all.now ≤ 1048576) }
    ensures { IsTrue result ↔ (65536 < nodes + 2 * length all.now) }
{
    Limit::Signals.most() < nodes as u64 + 2 * all.len() as u64
}

// The graph of nodes and handshakes.
fn expanded(alloc: Global, latches: &Latches<'_>, all: &[Handshake]) -> Result<Marked, OutOfMemory>
    requires are { AreHandshakes latches.now all.now }
    requires few { nodes_of latches.now + 2 * length all.now ≤ 65536 }
    ensures ok { IfOk result (IsExpansion latches.now) }
    ensures ok_kept { IfOk result (λ g. IsKept g) }
{
    let events = events_of(alloc, latches, all)?;
    let arcs = arcs_of(alloc, latches, all)?;
    Marked::new(alloc, events, arcs)
}
