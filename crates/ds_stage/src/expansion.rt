//! The graph that is written: of the required orders, or its expansion.
ghost use Rattle.std.specs.Prelude.{true};
ghost use Rattle.ds_stage.specs.Ends.{Answers, Never};
ghost use Rattle.ds_stage.specs.GraphStage.{wanted_stage};

use crate::delays::own_graph;
use crate::source::passed_limit;
use crate::stop::Stop;
use ds_latch::Latches;
use ds_marked::Marked;
use ds_shake::{ShakeFault, expand};
use std::alloc::Global;

/// The controller graph of latches, where it is wanted its four-phase expansion, or what refuses
/// it. `file` is the netlist's.
pub fn wanted_graph(
    alloc: Global,
    file: &str,
    latches: &Latches<'_>,
    shake: bool,
) -> Result<Marked, Stop>
    ensures { Answers (wanted_stage file.now shake latches.now) Never result }
{
    if shake {
        return expanded(alloc, file, latches);
    }
    match own_graph(alloc, latches) {
        Ok(graph) => Ok(graph),
        Err(_) => Err(Stop::Memory),
    }
}

// The expansion of the controller graph of latches.
fn expanded(alloc: Global, file: &str, latches: &Latches<'_>) -> Result<Marked, Stop>
    ensures { Answers (wanted_stage file.now true latches.now) Never result }
{
    match expand(alloc, latches) {
        Ok(graph) => {
            // Read for the facts that are known of the arcs of a graph.
            let _arcs = graph.arcs();
            Ok(graph)
        }
        Err(ShakeFault::TooMany(limit)) => Err(passed_limit(alloc, file, limit)),
        Err(ShakeFault::Memory) => Err(Stop::Memory),
    }
}
