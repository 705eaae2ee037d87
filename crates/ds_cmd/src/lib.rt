//! The words of a command line, read as the job that they ask for.
//!
//! A caller sees a word as its bytes, and a `Job` as one of the commands with its files' names and
//! its numbers.
//! `parse` gives exactly the job that the words ask for, or exactly why they are no command line.
//! What `clap` takes decides: its definition for simple commands, over the table of commands in
//! `specs/Commands.antt`, where a command joins by an entry. `ds_text_laws` says without `clap`
//! which lines are taken: the name of a command, its files or its numbers in decimal, and the
//! option behind them; and that no other name is. Of several faults a bad line comes first, then a
//! bad number, then a bad mode; open latches or an expansion beside slack
//! are a bad mode. A request for help or for
//! the version is no command line. No clause says what a `UsageFault` displays.
#![tactic(auto)]

mod accept;
mod argument;
mod check;
mod clock;
mod clusters;
mod command;
mod demo;
mod fault;
mod file_name;
mod graph;
mod job;
mod line;
mod list_clusters;
mod number;
mod period;
mod rate;
mod replay;
mod run;
mod subcommand;
mod times;

pub use accept::AcceptJob;
pub use clock::ClockJob;
pub use demo::DemoJob;
pub use fault::UsageFault;
pub use file_name::FileName;
pub use graph::GraphJob;
pub use job::Job;
pub use line::parse;
pub use list_clusters::ClustersJob;
pub use period::PeriodJob;
pub use rate::RateJob;
pub use replay::ReplayJob;
pub use run::RunJob;
pub use times::TimesJob;
