//! Events of a plan fired one after another: what each node keeps and has stored.
//!
//! A caller sees a `State` as a `Snapshot`: how often each event has fired, the rows of each node,
//! and what it has stored, its rows one after the other. `State::new` takes all memory. `fire`
//! fires an event where it is enabled and does exactly what the definition of a firing says; where
//! it is not, nothing changes and `Blocked` says why. `next_enabled` gives the least event that may
//! fire: it looks at one after the other. An opening settles the cone of its node and no other
//! table. Without slack, `output` computes what an open node lets through, from what the others
//! hold.
//! `laws` has what holds whatever is fired: held and stored rows are those of the clocked run,
//! nothing is enabled exactly at the end, there the stored rows spell the trace, and without slack
//! transparent latches show what the nodes hold.
#![tactic(auto)]

mod feeds;
mod homes;
mod kept;
pub mod laws;
mod opening;
mod row_places;
mod state;
mod stored_rows;
mod turn;

pub use state::State;
