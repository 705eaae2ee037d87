//! The rank of each event of a marked graph, along the arcs without tokens, or a cycle of such
//! arcs.
//!
//! `rank` gives 0 to an event that no arc without tokens enters, and to each other event one more
//! than the greatest rank among the sources of such arcs; where they lead in a circle it gives one
//! circle, from its least event on. `check_ranks` says whether numbers rise along these arcs. Time
//! and room are linear in the events and arcs. Which of several cycles is given is not promised.
//!
//! An order along edges: the rank of each node, or a cycle. Nodes are the numbers below a count,
//! each with a floor. `least_ranks` gives the least ranks that are no lower than the floors and
//! rise along each edge; where edges lead in a circle there are none, and it shows a cycle, begun
//! at its least node. Which cycle of several it shows is not promised. The definitions take the
//! relation as an argument, so that they serve for nets, events and arcs alike. Time and room are
//! linear in the nodes and edges.
#![tactic(auto)]

mod check;
mod cycle;
mod edge;
mod fault;
mod find;
pub mod laws;
mod levels;
mod links;
mod order_fault;
mod ranks;
mod search;

pub use check::check_ranks;
pub use edge::Edge;
pub use fault::RankFault;
pub use find::rank;
pub use levels::least_ranks;
pub use order_fault::OrderFault;
pub use ranks::Ranks;
