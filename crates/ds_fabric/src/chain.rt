//! The arcs into each event as a chain, from the last one back: where the arcs are found before
//! they are laid out side by side.
ghost use Rattle.std.specs.Prelude.{◌≡◌, IfOk, length, replicate};
ghost use Rattle.ds_rule.specs.Sound.{IsSound};
ghost use Rattle.ds_fabric.specs.Chained.{AreChained};

use crate::index::zeros;
use ds_base::OutOfMemory;
use ds_rule::{RunValues, TableRun};
use std::alloc::Global;

/// For each event, the arcs into it. `heads` has the place of the last arc into each event, `links`
/// from each arc that of the one before; a place is one more than an arc's number, and 0 where
/// there is none.
pub struct Chains {
    pub heads: Vec<usize>,
    pub links: Vec<usize>,
}

impl Drop for Chains {
    fn drop(self) {
        let Chains { heads: _, links: _ } = self;
    }
}

impl Chains {
    /// The chains of all arcs.
    pub fn of<V: RunValues>(alloc: Global, run: &TableRun<V>) -> Result<Chains, OutOfMemory>
        requires { IsSound run.now }
        ensures { IfOk result (λ c.
            AreChained run.now c) }
    {
        let mut heads = zeros(alloc, run.nodes() + run.design_nodes())?;
        let mut links = Vec::new(alloc);
        let arcs = run.arcs();
        for i in 0..arcs.len() {
            let target = arcs[i].target.index();
            links.push(heads[target])?;
            heads[target] = i + 1;
        }
        Ok(Chains { heads, links })
    }
}
