//! Latches: a netlist split into masters and slaves, its controller graph, and what firing means.
//!
//! `Latches` is a netlist whose registers stand in clusters, each with a master and a slave, seen
//! as a split design with its data edges; a `Node` is one of these, or the vectors, or the output
//! row; a `Plan` is a split design with a graph that controls it. The definitions say which orders
//! between openings and closings are required, which graphs are accepted, what a node takes as it
//! opens, and what it has stored. `laws` has what follows of them alone: after every legal list
//! each node keeps its value in the clocked run (flow equivalence), the stored rows spell the
//! trace, and no producer of an open latch writes the row that it reads (stability). How a graph is
//! made or read is promised by the crates above.
#![tactic(auto)]

mod latches;
pub mod laws;
mod node;
mod plan;
mod text;

pub use latches::{Edge as DataEdge, Latches};
pub use node::Node;
pub use plan::Plan;
pub use text::event_text;
