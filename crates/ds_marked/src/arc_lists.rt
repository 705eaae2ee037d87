//! For each event, the arcs into it.
ghost use Rattle.std.specs.Prelude.{◌≡◌, ◌<◌, ◌^◌, length, IfOk};
ghost use Rattle.ds_marked.specs.Graph.{AreEnds};
ghost use Rattle.ds_marked.specs.Into.{AreChains};

use crate::Arc;
use std::alloc::{AllocError, Global};

// The least arc into each event, and for each arc the next one into the same event. The number of
// the arcs stands where there is none.
#[derive(Drop)]
pub(crate) struct ArcLists {
    pub(crate) first: Vec<u32>,
    pub(crate) next: Vec<u32>,
}

impl ArcLists {
    pub(crate) fn of(alloc: Global, events: usize, arcs: &[Arc]) -> Result<Self, AllocError>
        requires ends { AreEnds events arcs.now }
        requires few { length arcs.now < 2 ^ 32 }
        ensures { IfOk result (λ c. AreChains events arcs.now 0 c.first.items c.next.items) }
    {
        let end = arcs.len() as u32;
        let mut first: Vec<u32> = vec![in alloc; end; events]?;
        let mut next: Vec<u32> = vec![in alloc; end; arcs.len()]?;
        for i in (0..arcs.len()).rev() {
            let target = arcs[i].target.index();
            next[i] = first[target];
            first[target] = i as u32;
        }
        Ok(ArcLists { first, next })
    }
}
