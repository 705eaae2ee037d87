//! Laws of the program as a whole, on which nothing of the program stands; each is the contract of
//! a function that does nothing.
//!
//! Of texts: a job has one text, but of `period` and `rate`, and of `run` with `--log` or `--stop`,
//! nothing is said; `run` prints what `clock` prints, and with `--log` prints it before its log. Of
//! logs: what `run --log` writes is read and fired to its end, and `replay` then shows the clocked
//! values of each register, and of a part of a log the first of them; what `run --stop --log`
//! writes is fired to where that run has stopped, and `replay` prints what it printed, for the
//! names of registers, as they are printed, are words that a reader takes; what `times` writes is a
//! log with a time behind each firing. Of latches: what an open node has read stays until it
//! closes, and a finished run has stored the clocked registers. Of orders: there is one from an
//! event to another, ranks exclude circles, and in what `graph --shake` writes those of a data edge
//! go by way of its request and its acknowledge. Of refused jobs: two lines that refuse one are the
//! same, or name cycles; and a fault has its own status where no read failed that a stage before it
//! needs. Of groups: what `clusters` prints gives the same clusters again, and without a file of
//! groups there are those of the mode. Of printed graphs: what `graph` prints, with `--shake` or
//! without, is read as the graph that was printed, and `accept` of the same netlist and clusters
//! takes it, and has a text of it.
#![tactic(auto)]

mod answers;
mod graphs;
mod groups;
mod latches;
mod logs;
mod names;
mod orders;
mod texts;

pub use answers::{exact_fault_early, jobs_have_one_line};
pub use graphs::{printed_graphs_are_read, printed_graphs_are_taken, printed_graphs_have_ranks};
pub use groups::{printed_clusters_are_groups, without_file_of_groups};
pub use latches::{read_rows_stay, stored_are_there};
pub use logs::{
    logged_is_fired, printed_is_replayed, states_are_clocked_so_far, stopped_is_replayed,
    times_are_logs, whole_states_are_clocked,
};
pub use names::names_are_plain;
pub use orders::{one_order, orders_go_by_handshakes, ranked_has_no_cycle};
pub use texts::{jobs_have_one_text, logged_runs_have_one_trace, runs_print_the_clocked_trace};
