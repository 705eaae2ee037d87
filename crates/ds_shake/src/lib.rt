//! The four-phase expansion of a controller graph: a request and an acknowledge for each data edge.
//!
//! `expand` gives the marked graph with the events of the nodes and, for each data edge, numbered
//! by producer and then by consumer, of two further signals: `r` and `a` with its number. The
//! producer opens before the request rises, the request rises before the consumer opens, the
//! consumer closes before the acknowledge rises, and the acknowledge rises before the producer
//! opens again; the other four arcs bring the two signals back. Each required order is given, by an
//! arc or by a walk of two, so the graph is a plan's, and the contract says so. Time and room are
//! linear in nodes and data edges, up to their order. Too many signals refuse, and want of memory.
#![tactic(auto)]

mod arcs;
mod edge_ends;
mod events;
mod expansion;
mod fault;
mod handshake;
pub mod laws;

pub use expansion::expand;
pub use fault::ShakeFault;
pub use handshake::Handshake;
