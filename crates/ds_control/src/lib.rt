//! The controller graph of a design whose registers are split into latches.
//!
//! `controller` gives a marked graph: its events are the openings and closings of the nodes, in
//! the order of the nodes, and its arcs are exactly the required orders, no two of them with the
//! same ends. So it is always accepted, and the contract says so. Time and room are linear in the
//! nodes and data edges, up to the order of the arcs. Nothing but want of memory refuses. Its parts
//! serve graphs with further signals: `node_events`, `push_events`, `push_node_arcs`, `opening`,
//! `closing`, `tokens_after` and `arc`.
#![tactic(auto)]

mod arcs;
mod events;
mod graph;

pub use arcs::{arc, closing, opening, push_node_arcs, tokens_after};
pub use events::{node_events, push_events};
pub use graph::controller;
