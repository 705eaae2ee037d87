//! What a run leaves: the events in the order of their tickets, each event's tickets, and the rows
//! that each node has stored.
ghost use Rattle.std.specs.Prelude.{◌≡◌, ◌<◌, ◌≤◌, ◌+◌, IfOk, length, slice_index};
ghost use Rattle.ds_rule.specs.Run.{closing, events};
ghost use Rattle.ds_rule.specs.Sound.{IsSound};
ghost use Rattle.ds_base.specs.Word.{count_of_words};
ghost use Rattle.ds_rule.specs.Words.{width, value, node_values};
ghost use Rattle.ds_rule.specs.Rule.{tickets};
ghost use Rattle.ds_fabric.specs.Showing.{IsFiredInOrder, IsTold};
ghost use Rattle.ds_fabric.specs.Unpacked.{IsPacked};

use crate::histories::Histories;
use crate::history::History;
use crate::pass::Pass;
use crate::places::find;
use crate::spread::{no_events, spread_all};
use crate::words::unpack;
use ds_base::{EventId, LatchId, OutOfMemory, Row3};
use ds_rule::{EventRole, NodeEvent};
use std::alloc::Global;
use std::marker::Model;
use std::snapshot::Snapshot;

/// What was fired, once nobody fires any more. A clause sees what its pass showed, and how many
/// firings there were.
#[derive(Drop)]
pub struct Record {
    pub(crate) histories: Histories,
    pub(crate) design_nodes: usize,
    pub(crate) many: u64,
    pub(crate) shown: Snapshot<Pass>,
}

impl Model for Record {
    ghost use Rattle.ds_fabric.specs.Showing.{Recorder, IsRecord};

    ghost Value = { Recorder };

    ghost view = { λ r. record { shown = r.shown.value; many = r.many } };

    ghost invariant = { λ r. IsRecord r.shown.value r.histories r.design_nodes r.many };
}

impl Record {
    /// How many firings there were.
    pub fn fired(&self) -> u64
        ensures { result ≡ self.now.many }
    {
        self.many
    }

    /// The ticket of firing number k, from 0, of an event.
    pub fn ticket(&self, event: EventId, k: usize) -> u64
        requires { k < length (tickets self.now.shown.view event) }
        ensures { result ≡ slice_index (tickets self.now.shown.view event) k }
    {
        let event = NodeEvent::of(event.index(), self.design_nodes);
        let (history, words) = self.history(event.node);
        history.ticket(words, event.role, k)
    }

    /// How often the event fired.
    pub fn count(&self, event: EventId) -> u64
        requires { event < events self.now.shown.view.run }
        ensures { result ≡ length (tickets self.now.shown.view event) }
    {
        let event = NodeEvent::of(event.index(), self.design_nodes);
        let (history, _) = self.history(event.node);
        event.role.turns(history.fired)
    }

    /// How many rows the latch has stored: one for each time that it closed. Its history has each
    /// row from the opening on, which computed it.
    pub fn stored(&self, node: LatchId) -> usize
        requires { node < self.now.shown.view.run.design_nodes }
        ensures value { result ≡ length (tickets self.now.shown.view (closing node)) }
        ensures sound { IsSound self.now.shown.view.run }
        ensures most { result ≤ self.now.shown.view.run.limit }
    {
        let (history, _) = self.history(node.index());
        EventRole::Closing.turns(history.fired) as usize
    }

    /// The value words of stored row number k, from 0.
    pub fn words(&self, node: LatchId, k: usize) -> &[u64]
        requires near { node < self.now.shown.view.run.design_nodes }
        requires stored { k < length (tickets self.now.shown.view (closing node)) }
        ensures long { length result.now
            ≡ count_of_words (slice_index self.now.shown.view.run.lengths node) }
        ensures value { IsPacked (node_values self.now.shown.view.run node (k + 1)) result.now }
        ensures same { length (node_values self.now.shown.view.run node (k + 1))
            ≡ slice_index self.now.shown.view.run.lengths node }
    {
        let (history, words) = self.history(node.index());
        let from = k * history.step + history.first;
        // Behind the row stand the tickets of the opening and of the closing.
        let width = history.stride - 2;
        &words[from..from + width]
    }

    /// Value word i of stored row number k, from 0.
    pub fn word(&self, node: LatchId, k: usize, i: usize) -> u64
        requires near { node < self.now.shown.view.run.design_nodes }
        requires stored { k < length (tickets self.now.shown.view (closing node)) }
        requires inside { i < width self.now.shown.view.run node }
        ensures { result ≡ value self.now.shown.view.run node (k + 1) i }
    {
        let words = self.words(node, k);
        words[i]
    }

    /// The values of stored row number k, from 0.
    pub fn row(&self, node: LatchId, k: usize, into: &mut Row3)
        requires near { node < self.now.shown.view.run.design_nodes }
        requires stored { k < length (tickets self.now.shown.view (closing node)) }
        requires length { length into.old ≡ slice_index self.now.shown.view.run.lengths node }
        ensures { into.new ≡ node_values self.now.shown.view.run node (k + 1) }
    {
        unpack(self.words(node, k), into);
    }

    // The history of a node, and the list of its words. The run is sound, for a caller too.
    fn history(&self, node: usize) -> (&History, &[u64])
        requires { IsSound self.now.shown.view.run → node < self.now.shown.view.run.nodes }
        ensures { IsTold self.now.shown.view node result.0.now result.1.now }
    {
        let nodes = self.histories.nodes.as_slice();
        let at = find(nodes, self.histories.places.as_slice(), node);
        let history = &nodes[at];
        (history, self.histories.words(history))
    }

    /// The events by rising ticket.
    pub fn firings(&self, alloc: Global) -> Result<Vec<EventId>, OutOfMemory>
        ensures ok { IfOk result (λ v.
            IsFiredInOrder self.now.shown.view.run (tickets self.now.shown.view) v.items) }
        ensures ok_long { IfOk result (λ v. length v.items ≡ self.now.many) }
    {
        let mut out = no_events(alloc, self.many as usize)?;
        spread_all(self.design_nodes, &self.histories, out.as_mut_slice());
        Ok(out)
    }
}
