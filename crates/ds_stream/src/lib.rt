//! Vectors without end, read a window at a time.
//!
//! A caller sees a `VectorReader` as four numbers beside the width: how many vectors there may be,
//! how many it has given, the place behind the line of the last of these, and how many physical
//! lines stand before that place. `next` gives exactly the next so many rows of a file, or exactly
//! its first faulty line, which tells the limit where there are too many; it keeps nothing of the
//! file from call to call, and of the current line at most the width and one byte. By the laws
//! windows, one after another, are the stream of the text, and of a short text that is what
//! `ds_rows::read_vectors` gives; and a window that has all its vectors is as long as they are at
//! least, so that no byte behind its last line is asked for.
//!
//! Not promised: how many reads a window takes. That `next` asks for no more bytes than
//! `Filling::ask` answers, which its contract bounds, is read in the code: a file does not tell how
//! much was asked of it.
#![tactic(auto)]

mod bytes;
mod current_line;
mod fault;
mod filling;
pub mod laws;
mod reader;
mod word;

pub use fault::{NextFault, StreamFault, StreamKind};
pub use reader::VectorReader;
