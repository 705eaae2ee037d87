//! The arcs into each event, side by side, so that a look at whether an event may fire walks along
//! one list. They are laid out once, from chains that are let go then.
ghost use Rattle.std.specs.Prelude.{◌≡◌, ◌<◌, ◌+◌, IfOk, OnOk, length};
ghost use Rattle.ds_rule.specs.Run.{events};
ghost use Rattle.ds_rule.specs.Sound.{IsSound};
ghost use Rattle.ds_fabric.specs.Chained.{AreChained};
ghost use Rattle.ds_fabric.specs.Into.{AreInto, AreIntoBelow, IsLinedUp};

use crate::arc_in::ArcIn;
use crate::chain::Chains;
use ds_base::OutOfMemory;
use ds_rule::{RunValues, TableRun};
use std::alloc::Global;

/// The arcs into each event, those of one event behind those of the event before it. `starts` has
/// the place of the first one into each event, and one place more; of one event the last arc comes
/// first. `numbers` has the number of each arc, which is asked for where it lacks tokens.
pub struct Incoming {
    pub starts: Vec<usize>,
    pub arcs: Vec<ArcIn>,
    pub numbers: Vec<u32>,
}

impl Drop for Incoming {
    fn drop(self) {
        let Incoming {
            starts: _,
            arcs: _,
            numbers: _,
        } = self;
    }
}

impl Incoming {
    /// The arcs of a run.
    pub fn of<V: RunValues>(alloc: Global, run: &TableRun<V>) -> Result<Incoming, OutOfMemory>
        requires { IsSound run.now }
        ensures { IfOk result (λ x. AreInto run.now x) }
    {
        let chains = Chains::of(alloc, run)?;
        let mut incoming = Incoming::room(alloc, run)?;
        for event in 0..run.nodes() + run.design_nodes() {
            incoming.take_in(run, &chains, event)?;
        }
        Ok(incoming)
    }

    // Room for all arcs of a run, of which there is none yet.
    fn room<V: RunValues>(alloc: Global, run: &TableRun<V>) -> Result<Incoming, OutOfMemory>
        requires { IsSound run.now }
        ensures { IfOk result (λ x.
            AreIntoBelow run.now 0 x.starts.items x.arcs.items x.numbers.items) }
    {
        let many = run.arcs().len();
        let mut starts = Vec::with_capacity(alloc, run.nodes() + run.design_nodes() + 1)?;
        starts.push_reserved(0);
        let arcs = Vec::with_capacity(alloc, many)?;
        let numbers = Vec::with_capacity(alloc, many)?;
        Ok(Incoming {
            starts,
            arcs,
            numbers,
        })
    }

    // The arcs into one event more.
    fn take_in<V: RunValues>(
        &mut self,
        run: &TableRun<V>,
        chains: &Chains,
        event: usize,
    ) -> Result<(), OutOfMemory>
        requires sound { IsSound run.now }
        requires chains { AreChained run.now chains.now }
        requires near { event < events run.now }
        requires below { AreIntoBelow run.now event
            self.old.starts.items self.old.arcs.items self.old.numbers.items }
        ensures { OnOk result (AreIntoBelow run.now (event + 1)
            self.new.starts.items self.new.arcs.items self.new.numbers.items) }
    {
        line_up(run, chains, event, &mut self.arcs, &mut self.numbers)?;
        self.starts.push(self.arcs.len())?;
        Ok(())
    }
}

// Puts the arcs into the event behind all others, from the last one on.
fn line_up<V: RunValues>(
    run: &TableRun<V>,
    chains: &Chains,
    event: usize,
    arcs: &mut Vec<ArcIn>,
    numbers: &mut Vec<u32>,
) -> Result<(), OutOfMemory>
    requires sound { IsSound run.now }
    requires chains { AreChained run.now chains.now }
    requires near { event < events run.now }
    requires long { length numbers.old.items ≡ length arcs.old.items }
    ensures { OnOk result (IsLinedUp run.now event 0 arcs.old.items numbers.old.items
        arcs.new.items numbers.new.items) }
{
    let all = run.arcs();
    let mut at = chains.heads[event];
    'back: while at > 0 {
        let number = at - 1;
        arcs.push(ArcIn::of(run, all[number]))?;
        numbers.push(number as u32)?;
        at = chains.links[number];
    }
    Ok(())
}
