//! The run of a plan on vectors, by workers on the shared table, with its trace and its log.
//!
//! `table_run_of` makes a plan a run that the rule of the table takes: its nodes and arcs, the data
//! edges by consumer, the lengths of the rows, and the values of the clocked run, which no code
//! knows before it has fired. What it gives is sound and accepted in the sense of the rule.
//! `Openings` computes the row of an opening from the rows that it is handed, each behind the
//! number of its producer, and from those that the scratch has learnt. `ConeGroups` has the groups
//! of tables that it sets, for all windows of a plan. `run` has workers fire the events
//! (`ds_runner::run`), and its record tells of every node that it stored the rows of the clocked
//! run, and that the firings by rising ticket are a legal list of the plan's graph with each event
//! once a vector. So are the firings of windows, one after another (`laws`). `run_to` has each
//! worker stop after so many firings: they are a legal list, and what is stored is what firing
//! stores by that list. Nothing is promised of time, or of which worker fires what.
//!
//! The trace and the log of a plan that workers have run. `write_window` runs a window of the
//! vectors, from any registers and turn on, with so many workers, and writes the trace of what its
//! nodes have stored, turn by turn: the outputs that OUT stored, and the registers that the slaves
//! stored in the turn before. A `Log` takes the firings, until `end_run` writes the last line and
//! that log. `write_stopped` stops the workers early and writes what the registers have stored by
//! then, which is what firing stores by the log. Each takes all memory that it cannot do without
//! before its first byte.
//! `sum_run` gives the number of ones in the outputs and the sum of the trace, and keeps one line
//! at a time. What is written and summed is that of the clocked run, whatever the workers do. By
//! the laws windows, one after another, are the text of the run; `ds_laws` says that what is
//! written with a log is read as one.
#![tactic(auto)]

mod cone_groups;
mod edges;
mod end;
mod foreseen;
mod halt;
mod known;
pub mod laws;
mod left;
mod lengths;
mod line_sharing;
mod lines_text;
mod log;
mod openings;
mod run_plan;
mod starts;
mod stopped;
mod stored;
mod stored_turns;
mod sums;
mod table_run;
mod trace;
mod trace_block;
mod trace_part;
mod trace_range;
mod trace_rows;
mod turn_range;
mod window;

pub use cone_groups::ConeGroups;
pub use ds_runner::WorkerSettings;
pub use end::end_run;
pub use foreseen::Foreseen;
pub use halt::Halt;
pub use log::Log;
pub use openings::Openings;
pub use run_plan::{run, run_to};
pub use stopped::write_stopped;
pub use sums::{Sums, sum_run};
pub use table_run::table_run_of;
pub use window::{RunWindow, write_window};
