//! The state of a plan as its events fire.
ghost use Rattle.std.specs.Prelude.{◌≡◌, ◌↔◌, ◌<◌, ℕ, IfOk, IsOk, OnOk, OnErr, length};
ghost use Rattle.ds_design.specs.Circuit.{columns};
ghost use Rattle.ds_latch.specs.Node.{IsNode, number_of, nodes};
ghost use Rattle.ds_latch.specs.declared.node.Node.{Node};
ghost use Rattle.ds_latch.specs.Firing.{State as DefinedState, held};
ghost use Rattle.ds_marked.specs.Blocked.{IsBlocked};
ghost use Rattle.ds_marked.specs.declared.blocked.Blocked.{Blocked};
ghost use Rattle.ds_fire.specs.Snapshot.{IsFirst, Shows, split_of, graph_of, limit_of, count_of};
ghost use Rattle.ds_fire.specs.Snapshot.{held_row, rows_joined, stored_values};
ghost use Rattle.ds_fire.specs.Fired.{IsFired, IsReached, IsReady, IsSnapshotSound};
ghost use Rattle.ds_fire.specs.Ready.{IsLeastReady};

use crate::feeds::Feeds;
use crate::kept::Kept;
use crate::row_places::RowPlaces;
use crate::turn::{Firing, turn};
use ds_base::{EventId, LatchId, OutOfMemory, Row3, Value};
use ds_design::Vectors;
use ds_latch::Plan;
use ds_marked::{Blocked, Counts};
use std::alloc::Global;
use std::marker::Model;

mod output;

/// What each node of a plan keeps and has stored, as its events fire, each at most once a vector.
pub struct State<'a> {
    plan: &'a Plan<'a>,
    vectors: &'a Vectors,
    counts: Counts,
    kept: Kept,
    feeds: Feeds,
}

impl Drop for State<'_> {
    fn drop(self) {
        let State {
            plan: _,
            vectors: _,
            counts: _,
            kept: _,
            feeds: _,
        } = self;
    }
}

impl<'a> Model for State<'a> {
    ghost use Rattle.ds_fire.specs.Snapshot.{Snapshot};
    ghost use Rattle.ds_fire.specs.Inside.{IsRunning, snapshot_seen};

    ghost Value = { Snapshot };

    ghost view = { λ s. snapshot_seen s.plan.now s.vectors.now s.counts s.kept };

    ghost invariant = { λ s. IsRunning
        (snapshot_seen s.plan.now s.vectors.now s.counts s.kept) s.vectors.now s.kept s.feeds };
}

impl<'a> State<'a> {
    /// Before the first firing. All memory that firings need is taken here.
    pub fn new(alloc: Global, plan: &'a Plan<'a>, vectors: &'a Vectors) -> Result<Self, OutOfMemory>
        requires { vectors.now.width ≡ length (columns plan.now.split.circuit) }
        ensures { IfOk result (IsFirst plan.now vectors.now.rows) }
    {
        let latches = plan.latches();
        let graph = plan.graph();
        // Read for the facts that its numbers name what is there, and that the slack is small.
        let (_design, _slack) = (latches.netlist().design(), latches.slack());
        let counts = Counts::zero(alloc, graph.events().len())?;
        let count = vectors.count();
        let kept = Kept::first(alloc, latches, count)?;
        let feeds = Feeds::of(alloc, latches)?;
        Ok(State {
            plan,
            vectors,
            counts,
            kept,
            feeds,
        })
    }

    /// Some legal list leads here.
    pub fn reached(&self)
        ensures sound { IsSnapshotSound self.now }
        ensures reached { IsReached self.now }
    {
        let _ = &self.counts;
    }

    /// How often an event has fired.
    pub fn count(&self, event: EventId) -> u64
        requires { event < length (graph_of self.now).events }
        ensures { result ≡ count_of self.now event }
    {
        self.counts.at(event)
    }

    /// The row of a node's last opening; before the first one the initial row of a slave, else
    /// zeros.
    pub fn held(&self, latch: LatchId) -> &Row3
        requires { latch < nodes (split_of self.now) }
        ensures value { (n : Node) → IsNode (split_of self.now) n → number_of n ≡ latch
            → result.now ≡ held_row self.now n }
        ensures shown { (n : Node) → IsNode (split_of self.now) n → number_of n ≡ latch
            → (now : DefinedState) → Shows self.now now
            → result.now ≡ held (split_of self.now) now n }
    {
        let opened = self.counts.at(EventId::new(2 * latch.number())) as usize;
        let places = RowPlaces::of(self.plan.latches(), opened);
        &self.kept.rows[latch.index() * places.each + places.same]
    }

    /// The rows that a node has stored, one a closing, one after the other.
    pub fn stored(&self, latch: LatchId) -> &[Value]
        requires { latch < nodes (split_of self.now) }
        ensures value { (n : Node) → IsNode (split_of self.now) n → number_of n ≡ latch
            → result.now ≡ stored_values self.now n }
        ensures shown { (n : Node) → IsNode (split_of self.now) n → number_of n ≡ latch
            → (now : DefinedState) → Shows self.now now → result.now ≡ rows_joined (now.stored n) }
    {
        self.kept.stored[latch.index()].values()
    }

    /// Whether an event may fire, and if not, why.
    pub fn enabled(&self, event: EventId) -> Result<(), Blocked>
        requires { event < length (graph_of self.now).events }
        ensures ok { IsOk result ↔ IsReady self.now event }
        ensures fault { (b : Blocked)
            → (result ≡ Err b) ↔ IsBlocked (graph_of self.now) (limit_of self.now)
            (count_of self.now) event b }
    {
        let limit = self.vectors.count() as u64;
        self.plan.graph().enabled(&self.counts, event, limit)
    }

    /// Fires an event where it may fire, without memory: an opening takes a row, a closing stores
    /// it.
    pub fn fire(&mut self, event: EventId) -> Result<(), Blocked>
        requires { event < length (graph_of self.old).events }

        // The event has fired once more.
        ensures ok { OnOk result (IsFired self.old event self.new) }
        ensures ready { IsOk result ↔ IsReady self.old event }

        // It may not fire.
        ensures same { OnErr result (self.new ≡ self.old) }
        ensures fault { (b : Blocked)
            → (result ≡ Err b) ↔ IsBlocked (graph_of self.old) (limit_of self.old)
            (count_of self.old) event b }
    {
        match self.enabled(event) {
            Ok(()) => {
                self.step(event);
                Ok(())
            }
            Err(blocked) => Err(blocked),
        }
    }

    /// The least event that may fire.
    pub fn next_enabled(&self) -> Option<EventId>
        ensures { IsLeastReady self.now result }
    {
        let events = self.plan.graph().events().len();
        for v in 0..events {
            let event = EventId::new(v as u32);
            if self.enabled(event).is_ok() {
                return Some(event);
            }
        }
        None
    }

    // Fires an event that may fire.
    fn step(&mut self, event: EventId)
        requires { IsReady self.old event }
        ensures { IsFired self.old event self.new }
    {
        let count = self.counts.at(event) as usize;
        let firing = Firing { event, count };
        turn(
            self.plan.latches(),
            self.vectors,
            &self.feeds,
            firing,
            &mut self.kept,
        );
        self.counts.add_one(event);
    }
}
