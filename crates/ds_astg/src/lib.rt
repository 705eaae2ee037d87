//! The text of a marked graph, in the `.g` form of SIS and petrify: read, and written.
//!
//! `read` gives exactly the graph for which a list of lines stands, or exactly their first fault,
//! the line and the kind; want of memory alone is answered freely. `specs/Read` says what lines
//! stand for: `specs/Line` what a line adds, `specs/Signals` the names that are declared, signals
//! and dummies, `specs/Links` the graph part, `specs/Marking` the marking. `write` appends the text
//! of a graph of signals, which `specs/Text` gives to the byte: its own signals are outputs, and
//! further ones are internal; of several arcs with the same ends the first is implicit, and each
//! other one is a place of its own. Where a write fails, a first part of the text is appended.
//! `ds_text_laws` says what follows: what is written is read as the same graph, texts that are
//! worked by hand.
//!
//! `write` takes no memory, and hands the text on in pieces of up to 65,536 bytes.
#![tactic(auto)]

mod declaration;
mod entry;
mod entry_key;
mod fault;
mod graph;
mod head;
mod key;
mod line;
mod links;
mod marking;
mod node;
mod piece;
mod place;
mod places;
mod reader;
mod role;
mod signal_lines;
mod signals;
mod state;
mod text;
mod tokens;
mod word;

pub use fault::{AstgFault, AstgKind, AstgRefusal};
pub use reader::read;
pub use text::write;
