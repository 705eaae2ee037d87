//! Graphs of three events.
ghost use Rattle.std.specs.Prelude.{◌≡◌, ◌<◌, ◌≤◌, IfOk, All, length};

use ds_base::{OutOfMemory, Seq};
use ds_marked::{Arc, Event, Kind, Marked};
use std::alloc::Global;

/// Three events without names, with these arcs, of which there are at most four.
pub fn graph(alloc: Global, arcs: &[Arc]) -> Result<Marked, OutOfMemory>
    requires ends { All (λ arc. (arc.source < 3) × (arc.target < 3)) arcs.now }
    requires few { length arcs.now ≤ 4 }
    ensures { IfOk result (λ g. length g.events ≡ 3) }
{
    let mut events = Seq::new(alloc);
    events.push(event(alloc, Kind::Rise))?;
    events.push(event(alloc, Kind::Fall))?;
    events.push(event(alloc, Kind::Dummy))?;
    Marked::new(alloc, events, Vec::from_slice(alloc, arcs)?)
}

fn event(alloc: Global, kind: Kind) -> Event
    ensures { result.kind ≡ kind }
{
    let signal = Seq::new(alloc);
    Event { signal, kind }
}
