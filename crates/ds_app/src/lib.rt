//! The top call and the commands: what the program does, from the words of its command line to its
//! status.
//!
//! A caller lends files and two outputs, and sees which bytes they hold and how often they have
//! failed. `desync_main` reads the words, does the job that they ask for, and answers a status from
//! 0 to 5. The record `IsAnswered` of specs/Status says when each status comes and what it leaves:
//! at 0 the output has exactly the job's text more, which `specs/Job` defines by the stages of
//! `ds_stage` and, where no threads run, `specs/JobStages`; at 1 the error output has the line of
//! the first fault of the files.
//!
//! Each command has a file. `run` has workers fire the events of the netlist's latches on a shared
//! table, over a graph of the user's where one is named, with as much slack as is wanted. Its text
//! is the trace of the one clocked run, which `clock` writes too, for any number of workers; with a
//! log, what the workers fired stands behind it, a legal list that has each event once a vector. A
//! run that is stopped tells what each register has stored then. `demo` makes a design from a
//! number, runs it, and sums its trace up. In whatever order the latches fire, each register stores
//! its clocked values: `Interleavings`.
//!
//! The commands that run no threads: `check`, `clock`, `graph`, `accept`, `replay`, `period`,
//! `rate`, `times`, and `clusters`, whose module is `list_clusters`. Each has a module of its name
//! with a call of that name, which reads the files of its job and writes its text: it ends as its
//! stages do, one after another (`Ends` of `ds_stage`), and what the files hold stays as it was.
//! `specs/JobStages` has the stages behind the netlist, which each of them but `rate` reads first.
//! A call is lent the job as `ds_cmd` reads it from the words.
//!
//! `check` reports on the netlist, and `graph` writes the controller graph. `clock` clocks the
//! netlist window by window, and writes the trace as it reads. `accept` writes the ranks of a graph
//! of the user's that is accepted. `replay` fires the events of a log where each may fire, and
//! writes what each register has stored then, and where it is wanted what each open latch lets
//! through. `period` writes the exact period of the controller graph, a cycle that has it, and
//! potentials that show it, `rate` those of a graph that stands alone. `times` writes when each
//! event fires, turn by turn, if each fires as early as its orders and delays allow. `clusters`
//! writes the clusters of the registers, a file of groups. Not promised is that memory is found,
//! and which of several cycles is shown.
#![tactic(auto)]

pub mod accept;
mod app;
pub mod check;
pub mod clock;
mod demo;
pub mod graph;
pub mod laws;
pub mod list_clusters;
pub mod period;
mod period_text;
pub mod rate;
pub mod replay;
mod run;
mod stopped;
pub mod times;
mod times_text;
mod words;

pub use app::desync_main;
pub use words::lend_words;
