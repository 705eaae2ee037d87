//! Circuits: the types that pass between the layers, and what they mean; and the models of a text.
//!
//! A `Design` is a flat design, seen as a list of nets, tables and registers; a `Netlist` is a
//! design that is accepted, with its columns, the level of each net, and its tables by level and
//! packed; `Vectors` are rows of one width. The definitions say what a design is accepted for,
//! which one valuation of the nets a turn has, what a clocked run is and how its trace is written.
//! `laws` has what follows of them alone: one valuation, one run, runs in windows, and that known
//! values stand where unknown ones become known. `by_level` sorts tables by the level of what they
//! drive. A caller is not promised an order of the tables but that each comes behind those that it
//! reads.
//!
//! The models of a netlist's text, as they are written, their words lent. A `Blif` is a netlist's
//! text as models: nets by their names, rows as characters, each command with its line. No word is
//! copied: `Word` lends one where it stands in the text, `Words` some words of a line. A caller
//! sees them as bytes and as lists of bytes, and a `Blif` as the list of its models, which are well
//! formed by specs/Source.
#![tactic(auto)]

mod blif;
mod design;
pub mod laws;
mod netlist;
mod order;
mod vectors;
mod word;
mod words;

pub use blif::{Blif, BlifModel, Command, LatchText, Pair, Part, TableText, UseText};
pub use design::{Design, Edge, Gate, Net, Register};
pub use netlist::Netlist;
pub use order::by_level;
pub use vectors::Vectors;
pub use word::Word;
pub use words::Words;
