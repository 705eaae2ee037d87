//! The rule of the shared table of a run, and the kinds of step that keep it.
//!
//! The table has a word for the next ticket, a word for the firings of each node, and the value
//! words of the nodes, of 32 values each. A pass, which is a seat of `atomic_table`, holds nodes.
//! It loads counts, begins the flight of an event that is enabled at what it saw, reads and writes
//! value words, draws a ticket and publishes. The rule, `Lawful`, says that the events that drew
//! are one legal list, and that each value word is that of the latest opening in its place, or of
//! the one being written there. Each step has a `Play`, which is what it tells, and a law in
//! `proofs` by which it keeps the rule. Nothing is said of time, or of which pass fires what.
#![tactic(auto)]

mod event_role;
pub mod laws;
mod node_event;
mod plays;
mod sizes;
mod table_run;
mod view;

pub use event_role::EventRole;
pub use node_event::NodeEvent;
pub use plays::{
    ChooseCut, Deal, Depart, Draw, FiringRule, Gather, Look, Observe, Publish, Read, Write,
};
pub use sizes::Sizes;
pub use table_run::{DataEdge, RunValues, TableRun};
pub use view::View;
