//! Laws of all jobs, on which nothing of the program stands; each is the contract of a function
//! that does nothing. Where all files of a job are there and tell what they hold, its stages mean
//! some text, or refuse with some line: no job is without an answer. So the status of a call is
//! told, none of whose reads and writes failed: its text is written, or a line refuses it, or it
//! wants memory. Where a file is not there, the status is 3 or 4, or a line refuses what stands
//! before it. And what `period` and `rate` print is one text but for the line of the cycle. Of
//! expansions: a four-phase expansion is there or a limit refuses it, and the graph that is wanted
//! has a text, or a line refuses.
//!
//! `specs/FileBytes` says which files a job names, and when they are there and tell their bytes;
//! `specs/Decided` says what is decided. `proofs/EachJob` puts the law together, stage by stage,
//! from the laws that ranks, walks, splits, graphs, plans, firings and periods are there. That no
//! stage does both is the law `jobs_are_exclusive` of `ds_app`.
#![tactic(auto)]

mod absent;
mod expansions;
mod jobs;
mod periods;
mod statuses;

pub use absent::absent_files_are_unread;
pub use expansions::{controllers_are_decided, expansions_are_decided};
pub use jobs::jobs_are_decided;
pub use periods::{one_period_text, periods_have_one_text, rates_have_one_text};
pub use statuses::statuses_are_told;
