//! The shared table with its calls: `build` makes it and the pass of all nodes, `step` fires,
//! `deal`, `deal_bare` and `gather` hand nodes from pass to pass, `finish` makes the record. Two
//! more calls that fire stand in files of their names: `step_in` for workers, with `step_node` and
//! `scratch`, and `fire_due` for the caller that is alone.
ghost use Rattle.std.specs.Prelude.{◌≡◌, ◌<◌, ◌≤◌, ◌+◌, true, ℕ, OnOk, OnErr, IfOk, length};
ghost use Rattle.ds_base.specs.Scratch.{Remembers};
ghost use Rattle.ds_rule.specs.Sound.{IsSound};
ghost use Rattle.ds_rule.specs.Log.{Recorded};
ghost use Rattle.ds_rule.specs.Rule.{holds, tickets};
ghost use Rattle.ds_rule.specs.Plays.{taken_in};
ghost use Rattle.ds_fabric.specs.Ranged.{AreReadWords};
ghost use Rattle.ds_fabric.specs.Stepped.{Stepped, FiresIfEnabled};
ghost use Rattle.ds_fabric.specs.Showing.{Belongs, IsFabricBegun, IsCounted, IsDealt, IsLeft, IsOf};
ghost use Rattle.ds_fabric.specs.Showing.{Stays, IsStood, no_scratch};

use crate::build::{histories, lay, reads, room_for};
use crate::compute::Compute;
use crate::incoming::Incoming;
use crate::index::Index;
use crate::pass::Pass;
use crate::places::{find, take_out};
use crate::record::Record;
use crate::seat_steps::{close_table, deal_seat, gather_seats};
use crate::step::Step;
use atomic_table::{Seat, Table};
use ds_base::{LatchId, OutOfMemory, Scratch};
use ds_rule::{FiringRule, RunValues, TableRun, View};
use std::alloc::Global;
use std::marker::Model;
use std::snapshot::Snapshot;

/// The shared table of a run.
#[derive(Drop)]
pub struct Fabric<'a, V: RunValues, C: Compute> {
    pub(crate) run: &'a TableRun<V>,
    pub(crate) openings: &'a C,
    pub(crate) incoming: Incoming,
    pub(crate) index: Index,
    pub(crate) table: Table<u8, View, TableRun<V>, FiringRule, Global>,
}

impl<'a, V: RunValues, C: Compute> Model for Fabric<'a, V, C> {
    ghost use Rattle.std.specs.Prelude.{◌≡◌, length};
    ghost use Rattle.ds_fabric.specs.Base.{Base, IsBuilt};
    ghost use Rattle.ds_fabric.specs.Into.{AreInto};

    ghost Value = { Base };

    ghost view = { λ f. record {
      table_id = f.table.shared.table_id;
      run = f.run.now;
      memory = C.memory f.openings.now;
    } };

    ghost invariant = { λ f. IsBuilt f.table.shared.table_id f.table.shared.key f.run.now f.index
        × (C.run f.openings.now ≡ f.run.now)
        × AreInto f.run.now f.incoming };
}

impl<'a, V: RunValues, C: Compute> Fabric<'a, V, C> {
    /// The shared table of a run in which nothing has fired, and the pass that holds all nodes.
    pub fn build(
        alloc: Global,
        run: &'a TableRun<V>,
        openings: &'a C,
    ) -> Result<(Fabric<'a, V, C>, Pass), OutOfMemory>
        requires sound { IsSound run.now }
        requires openings { C.run openings.now ≡ run.now }
        ensures { IfOk result (λ r. IsFabricBegun run.now r.0 r.1) }
    {
        let reads = reads(alloc, run)?;
        let histories = histories(alloc, run, reads.as_slice())?;
        let scratch = openings.scratch(alloc)?;
        let (fabric, seat) = Fabric::stand(alloc, run, openings, reads)?;
        let room = run.nodes() as u32;
        let pass = Pass {
            seat,
            histories,
            scratch,
            room,
        };
        Ok((fabric, pass))
    }

    // The shared table of a run in which nothing has fired, and the one seat at it.
    fn stand(
        alloc: Global,
        run: &'a TableRun<V>,
        openings: &'a C,
        reads: Vec<usize>,
    ) -> Result<(Fabric<'a, V, C>, Seat<u8, View>), OutOfMemory>
        requires sound { IsSound run.now }
        requires openings { C.run openings.now ≡ run.now }
        requires reads { AreReadWords run.now reads.items }
        ensures { IfOk result (λ r. IsStood run.now (C.memory openings.now) r.0 r.1.table_id
            r.1.me) }
    {
        let (words, starts) = lay(alloc, run, openings)?;
        let index = Index::of(alloc, run, starts, reads)?;
        let incoming = Incoming::of(alloc, run)?;
        let (table, seat) = Table::of_words(alloc, words.as_slice(), run)?;
        let fabric = Fabric {
            run,
            openings,
            incoming,
            index,
            table,
        };
        Ok((fabric, seat))
    }

    /// Fires the next event of the node, if what its sources show is enough. It takes no memory and
    /// waits for nobody.
    pub fn step(&self, pass: &mut Pass, node: LatchId) -> Step
        requires fits { Belongs self.now pass.old }
        requires held { holds pass.old.view node ≡ true }

        ensures same { Stays self.now.memory pass.old pass.new }
        ensures step { Stepped self.now.run pass.old.view node result pass.new.view }
        ensures exact { FiresIfEnabled self.now.run pass.old.view node result }
    {
        self.step_node(&mut pass.seat, &mut pass.histories, node, &mut pass.scratch)
    }

    /// The node goes to a new pass, which has seen what the old one had seen.
    pub fn deal(
        &self,
        alloc: Global,
        pass: &mut Pass,
        node: LatchId,
        room: u32,
    ) -> Result<Pass, OutOfMemory>
        requires fits { IsOf self.now pass.old }
        requires held { holds pass.old.view node ≡ true }
        requires room { 0 < room }

        ensures ok { IfOk result (λ q. IsDealt pass.old node room q) }
        ensures ok_remembers { IfOk result (λ q. Remembers self.now.memory q.scratch) }
        ensures ok_left { OnOk result (IsLeft pass.old node pass.new) }
        ensures same { OnErr result (pass.new ≡ pass.old) }
    {
        let scratch = self.openings.scratch(alloc)?;
        self.deal_with(alloc, pass, node, room, scratch)
    }

    /// The node goes to a new bare pass, which has room for it alone, and a scratch of no net:
    /// small, so that there may be one for each node. It steps by `step_in`.
    pub fn deal_bare(
        &self,
        alloc: Global,
        pass: &mut Pass,
        node: LatchId,
    ) -> Result<Pass, OutOfMemory>
        requires fits { IsOf self.now pass.old }
        requires held { holds pass.old.view node ≡ true }

        ensures ok { IfOk result (λ q. IsDealt pass.old node 1 q) }
        ensures ok_bare { IfOk result (λ q. q.scratch ≡ no_scratch) }
        ensures ok_left { OnOk result (IsLeft pass.old node pass.new) }
        ensures same { OnErr result (pass.new ≡ pass.old) }
    {
        let scratch = Scratch::of(alloc, 0, 0)?;
        self.deal_with(alloc, pass, node, 1, scratch)
    }

    // The node goes to a new pass, whose own scratch this is.
    fn deal_with(
        &self,
        alloc: Global,
        pass: &mut Pass,
        node: LatchId,
        room: u32,
        scratch: Scratch,
    ) -> Result<Pass, OutOfMemory>
        requires fits { IsOf self.now pass.old }
        requires held { holds pass.old.view node ≡ true }
        requires room { 0 < room }

        ensures ok { IfOk result (λ q. IsDealt pass.old node room q) }
        ensures ok_scratch { IfOk result (λ q. q.scratch ≡ scratch) }
        ensures ok_left { OnOk result (IsLeft pass.old node pass.new) }
        ensures same { OnErr result (pass.new ≡ pass.old) }
    {
        let number = node.index();
        let held = pass.histories.nodes.as_slice();
        let at = find(held, pass.histories.places.as_slice(), number);
        let reads = self.index.reads[number];
        let mut histories = room_for(alloc, self.run, number, reads, room)?;
        pass.histories.separate(alloc, self.run.limit() as usize)?;
        let seat = deal_seat(&self.table.shared, self.run, &mut pass.seat, number);
        let history = take_out(&mut pass.histories.nodes, &mut pass.histories.places, at);
        histories.nodes.push_reserved(history);
        Ok(Pass {
            seat,
            histories,
            scratch,
            room,
        })
    }

    /// The first pass takes in the nodes of the second.
    pub fn gather(&self, pass: &mut Pass, other: Pass)
        requires fits { IsOf self.now pass.old }
        requires other { IsOf self.now other }
        requires room { pass.old.many + other.many ≤ pass.old.room }

        ensures same { (pass.new.table_id ≡ pass.old.table_id) × (pass.new.room ≡ pass.old.room)
            × (pass.new.scratch ≡ pass.old.scratch) }
        ensures many { pass.new.many ≡ pass.old.many + other.many }
        ensures view { pass.new.view ≡ taken_in pass.old.view other.view }
    {
        let Pass {
            seat,
            histories,
            scratch: _,
            room: _,
        } = other;
        gather_seats(&self.table.shared, self.run, &mut pass.seat, seat);
        pass.histories.take_in(histories);
    }

    /// Ends the run. The pass holds all nodes.
    pub fn finish(self, pass: Pass) -> Record
        requires fits { IsOf self pass }
        requires all { (l : ℕ) → l < self.run.nodes → holds pass.view l ≡ true }

        ensures same { result.shown ≡ pass }
        ensures legal { Recorded self.entry.run (tickets pass.view) result.many }
        ensures counted { IsCounted pass.view }
    {
        let shown = Snapshot::of(&pass);
        let Fabric {
            run,
            openings: _,
            incoming: _,
            index: _,
            table,
        } = self;
        let Pass {
            seat,
            histories,
            scratch: _,
            room: _,
        } = pass;
        let many = close_table(table, run, seat);
        Record {
            histories,
            design_nodes: run.design_nodes(),
            many,
            shown,
        }
    }
}
