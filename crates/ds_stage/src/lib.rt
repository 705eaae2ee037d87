//! The stages of a job: from its files to netlist, vectors, plan and state, with their texts.
//!
//! A stage says four things: what it may give, which lines refuse it, which line says that a file
//! was not read (`specs/Stage`), and which text it leaves on the output where it stops: none, but
//! for vectors that are read window by window (`specs/StreamStage`). A call here does one stage. It
//! gives what the stage may give, or a `Stop`, which has the line that the stage says, or says that
//! memory was wanted or that a write failed (`specs/Ends`). The last stage of a job writes a text:
//! it was appended whole, or a first part of it and a write failed.
//!
//! `read_netlist` and `read_rows` read netlist and vectors (`specs/Stages`), `wanted_groups` the
//! groups of registers (`specs/GroupsStage`), `read_window` the next
//! 4,096 vectors of a stream (`specs/StreamStops`), `split_netlist` makes latches
//! (`specs/SplitStage`), `plan_netlist`, `plan_named` and `own_plan` plans (`specs/PlanStage`),
//! `read_log` the state after a log (`specs/ReplayStage`), and `write_state` its text, which is
//! that of `ds_replay`; all memory is taken before its first byte is written. `read_timing` reads
//! the delays of a graph's arcs (`specs/PeriodStage`), `read_bare_graph` a graph that stands alone
//! (`specs/RateStage`), and `own_graph` makes the graph of the required orders, `wanted_graph` that
//! which is written (`specs/GraphStage`). `put_time` writes a line of a timed run
//! (`specs/TimesStage`), `write_report` the report on a netlist (`specs/Report`).
//!
//! The lines that name faults of files, and the texts that stand in them. A line has the file, the
//! number of the line where there is one, and the text of the fault; `file_line`, `numbered_line`
//! and `unread_line` make it, and `too_many` the text of a limit that is passed. The texts are
//! those of the readers' faults, each given exactly (`specs/FaultText`, `specs/GraphText`):
//! `blif_text` and `flat_text` of a line of a netlist, `net_fault_text` of a design that is not
//! accepted, with the names of its nets, `vector_text` of a line of vectors that are read whole,
//! `astg_text` of a line of a graph, and `accept_text` of a graph that is not accepted, with its
//! events. The texts on windows of vectors, on logs and on delays stand with their stages.
//! `put_event` and `put_events` put events behind a text, or for want of memory a first part of
//! them. Want of memory has no text, and when it comes is not promised.
#![tactic(auto)]

mod bare_graph;
mod delays;
mod expansion;
mod fault_line;
mod fault_text;
mod graph_text;
mod groups;
pub mod laws;
mod log;
mod log_text;
mod net_text;
mod plan;
mod report;
mod source;
mod split;
mod splitting;
mod state_text;
mod stop;
mod stream;
mod times_text;

pub use bare_graph::read_bare_graph;
pub use delays::{own_graph, read_timing};
pub use expansion::wanted_graph;
pub use fault_line::{file_line, numbered_line, too_many, unread_line};
pub use fault_text::{blif_text, flat_text, vector_text};
pub use graph_text::{accept_text, astg_text, put_event, put_events};
pub use groups::{no_groups, wanted_groups};
pub use log::read_log;
pub use net_text::net_fault_text;
pub use plan::{own_plan, plan_named, plan_netlist};
pub use report::{put_count, write_report};
pub use source::{read_netlist, read_rows};
pub use split::{cluster_netlist, split_groups, split_netlist};
pub use splitting::Splitting;
pub use state_text::write_state;
pub use stop::Stop;
pub use stream::{WINDOW, most_vectors, read_window};
pub use times_text::put_time;
