//! A log of firings, read and fired again, and the text of the state that it leads to.
//!
//! A caller sees a log as lines of words, and what it leads to as a `Snapshot` of `ds_fire`.
//! `replay` begins behind the first line that is the one word `firings`, at the first line where
//! there is none, and fires the event of each line. `specs/Replay` computes of the lines which
//! events they fire, or their first fault, by line and then in the order of `ReplayKind`: `Ok` is
//! that all lines were read, and the state is the one after these events; a fault is that one. The
//! laws say the same in the words of `ds_marked`: `Ok` exactly where the lines are a legal log; and
//! a log that is printed is fired to its end, also behind a trace (`specs/Printed`). `firings` says
//! how many lines are read, so how many firings there were. Events are found by hash, and no line
//! takes memory but for a fault. Where several events are written alike, the first is meant.
//!
//! The text of the state that a log leads to: stored values, firings, open latches. A caller has
//! the state of the firing core after a log's firings, how many they were, and whether what open
//! latches show is wanted (`AfterLog`). `Rooms::of` takes all memory that the text asks for, and
//! finds what open latches show; `write_kept` writes the text by way of a buffer, or a first part
//! of it where a write fails: a line for each register with what it has stored, the line of the
//! firings, and where it is wanted a line for each node that is open, with what it shows
//! (`specs/OpenLines`). The text is that of every log that leads to this state (`specs/ReplayText`,
//! `specs/Kept`). When memory is wanted is not promised.
#![tactic(auto)]

mod after_log;
mod fault;
mod fire;
pub mod laws;
mod log;
mod open_text;
mod rooms;
mod start;
mod state_text;
mod step;
mod word;

pub use after_log::AfterLog;
pub use fault::{ReplayFault, ReplayKind, ReplayRefusal};
pub use log::replay;
pub use rooms::Rooms;
pub use start::firings;
pub use state_text::write_kept;
