//! The events of all nodes in one list, each at the place of its ticket.
ghost use Rattle.std.specs.Prelude.{ℕ, List, ◌≡◌, ◌<◌, ◌+◌, ◌*◌, IfOk, length};
ghost use mathlib.Core.Option.{some};
ghost use lib.ListN.{get_elem?};
ghost use Rattle.ds_rule.specs.Run.{Run};
ghost use Rattle.ds_fabric.specs.HistoryList.{list_of_words};
ghost use Rattle.ds_fabric.specs.Showing.{Showing, IsRecord};
ghost use Rattle.ds_fabric.specs.Spread.{IsInside, IsFilled, IsElsewhereKept, IsLeftOver};
ghost use Rattle.ds_fabric.specs.Spread.{HasSpread};
ghost use Rattle.ds_fabric.specs.Spread.{CanSpread};
ghost use Rattle.ds_fabric.specs.declared.history.History.{History};

use crate::histories::Histories;
use crate::history::History;
use ds_base::{EventId, OutOfMemory};
use ds_rule::NodeEvent;
use std::alloc::Global;

/// Room for so many events.
pub fn no_events(alloc: Global, count: usize) -> Result<Vec<EventId>, OutOfMemory>
    ensures { IfOk result (λ v. length v.items ≡ count) }
{
    Ok(vec![in alloc; EventId::new(0); count]?)
}

/// Puts the events of all nodes at the places of their tickets.
pub fn spread_all(design_nodes: usize, histories: &Histories, out: &mut [EventId])
    requires { (p : Showing) × IsRecord p histories.now design_nodes (length out.old) }
    ensures long { length out.new ≡ length out.old }
    ensures filled { (p : Showing) → IsRecord p histories.now design_nodes (length out.old)
        → (i : ℕ) (h : History) → get_elem? histories.now.nodes.items i ≡ some h
        → HasSpread p.view.run h (list_of_words histories.now h) out.new }
{
    let nodes = histories.nodes.as_slice();
    for i in 0..nodes.len() {
        let history = &nodes[i];
        spread(design_nodes, history, histories.words(history), out);
    }
}

// Puts the events of a node at the places of their tickets.
fn spread(design_nodes: usize, history: &History, words: &[u64], out: &mut [EventId])
    requires few { (2 * design_nodes < 4294967296)
        × (design_nodes + history.now.node < 4294967296) }
    requires can { (run : Run)
        × CanSpread design_nodes (length out.old) run history.now words.now }

    ensures long { length out.new ≡ length out.old }
    ensures filled { (run : Run)
        → CanSpread design_nodes (length out.old) run history.now words.now
        → HasSpread run history.now words.now out.new }
    ensures kept { (run : Run) → design_nodes ≡ run.design_nodes
        → IsLeftOver run history.now words.now out.old out.new }
{
    let node = history.node as u32;
    if history.node < design_nodes {
        put(design_nodes, history, words, EventId::new(2 * node), out);
        put(
            design_nodes,
            history,
            words,
            EventId::new(2 * node + 1),
            out,
        );
    } else {
        put(
            design_nodes,
            history,
            words,
            EventId::new(node + design_nodes as u32),
            out,
        );
    }
}

// Puts the event at the places of its tickets.
fn put(design_nodes: usize, history: &History, words: &[u64], event: EventId, out: &mut [EventId])
    requires { (run : Run) × (design_nodes ≡ run.design_nodes)
        × IsInside run history.now words.now event (length out.old) }

    ensures long { length out.new ≡ length out.old }
    ensures filled { (run : Run) → design_nodes ≡ run.design_nodes
        → IsFilled run history.now words.now event out.new }
    ensures kept { (run : Run) → design_nodes ≡ run.design_nodes
        → IsElsewhereKept run history.now words.now event out.old out.new }
{
    let role = NodeEvent::of(event.index(), design_nodes).role;
    for k in 0..role.turns(history.fired) as usize {
        out[history.ticket(words, role, k) as usize] = event;
    }
}
