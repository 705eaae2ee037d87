//! The shared table of a run, and the passes with which threads fire its events.
//!
//! A `Fabric` is seen as its table and its run, a `Pass` as what it holds and knows. `build` gives
//! a table in which nothing has fired, and the pass of all nodes; `deal` and `gather` cut and join
//! passes; `step` fires the next event of a node where the counts that it loads are enough, and
//! says else which arc lacks tokens, in the pass's own scratch, and `step_in` in one that is lent,
//! for the small passes of `deal_bare`; `fire_due` fires what is known to be enabled, and looks at
//! no arc; `finish` ends the run. A `Record` has the tickets of each event, which are the places of
//! one legal list, and the rows of each node. How the row of a node comes from those of its
//! producers is a `Compute`, which says what a scratch remembers, and which rows it has learnt:
//! these are not read. Nothing is promised of time, or which pass fires what.
#![tactic(auto)]

mod arc_in;
mod buffers;
mod build;
mod chain;
mod compute;
mod context;
mod counts;
mod due_event;
mod fabric;
mod fire_due;
mod flight;
mod hints;
mod histories;
mod history;
mod incoming;
mod index;
mod learnt;
mod opening_in_flight;
mod pass;
mod places;
mod record;
mod rows;
mod seat_steps;
mod spread;
mod step;
mod step_in;
mod words;

pub use compute::Compute;
pub use fabric::Fabric;
pub use pass::Pass;
pub use record::Record;
pub use step::Step;
pub use words::unpack;
