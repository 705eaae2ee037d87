ghost use Rattle.std.specs.Prelude.{◌≡◌, IfOk};
ghost use Rattle.ds_latch.specs.Plan.{IsPlan, split_events};
ghost use Rattle.ds_control.specs.Control.{AreOrders, IsSimple};

use crate::arcs::arcs;
use crate::events::node_events;
use ds_base::OutOfMemory;
use ds_latch::Latches;
use ds_marked::Marked;
use std::alloc::Global;

/// The graph of the events of all nodes, in the order of the nodes, an opening before its closing,
/// with an arc for each required order.
pub fn controller(alloc: Global, latches: &Latches<'_>) -> Result<Marked, OutOfMemory>
    ensures ok_events { IfOk result (λ g. g.events ≡ split_events latches.now) }
    ensures ok_orders { IfOk result (λ g. AreOrders latches.now g) }
    ensures ok_simple { IfOk result (λ g. IsSimple g) }
    ensures ok_plan { IfOk result (λ g. IsPlan latches.now g) }
{
    let events = node_events(alloc, latches.clusters().len())?;
    let arcs = arcs(alloc, latches)?;
    Marked::new(alloc, events, arcs)
}
