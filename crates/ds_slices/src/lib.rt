//! 64 turns of a clocked run in words: a word for each net, whose bit k is the net's value in
//! turn k.
//!
//! Where no register feeds back, the turns need not be worked out one after another. `Slices` keeps
//! an order of the tables and registers, in which each comes behind those that drive what it reads,
//! and the words. `set_words` works out the words of up to 64 turns of vectors: a table takes a few
//! operations on words for all turns at once, and a register's word is that of its data net, one
//! turn later, with the register's value before the first turn in front. A caller sees that in each
//! turn the bits are the one valuation of the registers and the vector. Start and vectors have to
//! be known. `begin_turn` makes bytes of eight turns, from which `put_turn_line` writes the line of
//! one, and `set_state` gives the registers behind a turn. A table of more than six inputs is
//! worked out turn by turn.
#![tactic(auto)]

mod bit;
mod bytes;
mod columns;
mod line;
mod links;
mod pick;
mod quick;
mod slices;
mod state;
mod table;

pub use bytes::begin_turn;
pub use line::put_turn_line;
pub use slices::{Slices, set_words};
pub use state::set_state;
