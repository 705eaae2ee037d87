//! From a graph to a plan, or to its fault.
ghost use Rattle.std.specs.Prelude.{◌≡◌, IfErr, IfOk, MatchResult};
ghost use Rattle.ds_marked.specs.Graph.{IsKept};
ghost use Rattle.ds_latch.specs.Plan.{IsPlan, split_events};
ghost use Rattle.ds_control.specs.Control.{AreOrders};
ghost use Rattle.ds_accept.specs.Accept.{IsAcceptable, IsPlanOf};
ghost use Rattle.ds_accept.specs.Fault.{IsAcceptFault};
ghost use Rattle.ds_accept.specs.Steps.{IsOrdered};
ghost use Rattle.ds_accept.specs.declared.fault.AcceptFault.TheVariants.{Memory};

use crate::AcceptFault;
use crate::events::places_of;
use crate::orders::orders_asked;
use crate::renumber::ordered;
use crate::walks::check_walks;
use ds_control::controller;
use ds_latch::{Latches, Plan};
use ds_marked::Marked;
use std::alloc::Global;

/// Makes a plan of a graph that is accepted. A refusal gives latches and graph back.
pub fn accept<'a>(
    alloc: Global,
    latches: Latches<'a>,
    graph: Marked,
) -> Result<Plan<'a>, (Latches<'a>, Marked, AcceptFault)>
    // An acceptable graph, with the events of the nodes first, in their order, then all others.
    ensures ok { IfOk result (IsPlanOf latches.entry graph) }
    ensures ok_kept { IfOk result (λ p. IsKept p.graph) }
    ensures ok_accepted { IfOk result (λ _. IsAcceptable latches.entry graph) }
    // Where the graph is acceptable, nothing but want of memory refuses it.
    ensures ok_exact { IsAcceptable latches.entry graph → IfErr result (λ r. r.2 ≡ Memory) }

    // Latches and graph come back with the first fault, so the graph is not acceptable.
    ensures back { IfErr result (λ r. (r.0 ≡ latches.entry) × (r.1 ≡ graph)) }
    ensures fault { IfErr result (λ r. IsAcceptFault latches.entry graph r.2) }
{
    match check(alloc, &latches, &graph) {
        Ok(ordered) => Ok(Plan::of(latches, ordered)),
        Err(fault) => Err((latches, graph, fault)),
    }
}

// The graph with the events of the nodes first, or the fault.
fn check(alloc: Global, latches: &Latches<'_>, graph: &Marked) -> Result<Marked, AcceptFault>
    ensures checked { MatchResult result (IsOrdered latches.now graph.now)
        (IsAcceptFault latches.now graph.now) }
{
    let required = controller(alloc, latches)?;
    check_required(alloc, latches, &required, graph)
}

// The same against the graph of the required orders.
fn check_required(
    alloc: Global,
    latches: &Latches<'_>,
    required: &Marked,
    graph: &Marked,
) -> Result<Marked, AcceptFault>
    requires events { required.now.events ≡ split_events latches.now }
    requires orders { AreOrders latches.now required.now }
    requires plan { IsPlan latches.now required.now }
    ensures checked { MatchResult result (IsOrdered latches.now graph.now)
        (IsAcceptFault latches.now graph.now) }
{
    let places = places_of(alloc, required, graph)?;
    let other = ordered(alloc, graph, required)?;
    let asked = orders_asked(alloc, required, &other, places.as_slice())?;
    check_walks(alloc, graph, asked.as_slice())?;
    Ok(other)
}
