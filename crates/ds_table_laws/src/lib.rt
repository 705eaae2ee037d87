//! Laws of runs and of the shared table, on which nothing of the program stands. They follow from
//! the definitions alone. Each law is the contract of a function that does nothing.
//!
//! Of the shared table: tickets are the numbers below that of the firings; what is in flight is
//! enabled at the counts that the words show; a step says that a node is done exactly where it is;
//! the pass of a node is free, or with one turn. Of runs: where every initial value and every
//! vector is known, no value is unknown and the trace has no `x`; there are traces, legal lists,
//! logs, and texts of runs, of stopped runs and of replayed logs.
#![tactic(auto)]

mod firings;
mod known;
mod steps;
mod table_counts;
mod texts;
mod tickets;
mod traces;
mod turns;

pub use firings::legal_lists_exist;
pub use known::{known_runs_are_known, known_traces_are_known};
pub use steps::{done_is_whole, not_yet_is_part};
pub use table_counts::{flights_are_enabled, shown_are_reached};
pub use texts::{
    logs_exist, replay_texts_exist, run_texts_exist, state_texts_exist, stopped_texts_exist,
};
pub use tickets::{tickets_are_numbers, tickets_follow};
pub use traces::traces_exist;
pub use turns::{one_turn_has_it, passes_are_somewhere};
