//! Acceptance of a user's controller graph for a design whose registers are split into latches.
//!
//! `accept` takes a graph that has the events of the nodes, in any order and among any others, that
//! gives each required order by a walk along arcs whose tokens sum to at most its own, and in which
//! nothing waits for itself. It makes a plan of it, whose graph is the same with the events of the
//! nodes first, in their order, and behind them all others, as they stand. Every other graph is
//! refused with its first fault, and latches and graph come back: a node's event that lacks, a
//! required order that no walk gives, with the least sum of tokens along walks, or a cycle of arcs
//! without tokens. Where arcs give all orders time and room are linear in events, arcs and required
//! orders, up to the order of the arcs; how long the search for walks takes, and which of several
//! cycles is shown, is not promised.
//!
//! Walks along the arcs of a marked graph: which orders they give, and how few tokens they have. An
//! order is given where the tokens along some walk from its source to its target sum to at most its
//! own. `first_unmet` gives the first of the asked orders that no walk gives, or none: it takes 64
//! sources at a time, with one word an event and sum of tokens, and ors words along the arcs until
//! all is found or none changes. `least_sums` gives, for each event, the least sum of tokens along
//! walks to it from one event, or none where there is no walk. The events are taken in the order
//! that the caller gives, or knot by knot where arcs without tokens lead against it: that changes
//! how long it takes, and not what is found. How many sweeps that are is not promised.
#![tactic(auto)]

mod ahead;
mod arcs;
mod block;
mod capped;
mod depth;
mod events;
mod fault;
mod knots;
pub mod laws;
mod nearest;
mod numbered;
mod numbers;
mod orders;
mod places;
mod plan;
mod ranked;
mod renumber;
mod sums;
mod sweep;
mod unmet;
mod walk_search;
mod walks;

pub use fault::AcceptFault;
pub use plan::accept;
pub use sums::least_sums;
pub use unmet::first_unmet;
