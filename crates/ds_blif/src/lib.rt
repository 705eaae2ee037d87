//! Reading a netlist's text: logical lines in the Berkeley Logic Interchange Format.
//!
//! A caller sees a text as a list of models, as they are written: nets by their names, rows as
//! characters, each command with its line. `read` gives exactly the models that the lines stand
//! for, or exactly their first fault, the line and the kind; a kind is the first that holds in one
//! fixed order. Want of memory alone is answered freely.
//!
//! What a text means is `specs/Text`: `specs/State` has the faults, line by line, `specs/Parts` the
//! models, from the last line to the first. `ds_text_laws` says what follows: the models are well
//! formed, what is printed is read, texts that are worked by hand.
//!
//! Not promised: that used models and their formals are there, or that nets are driven.
#![tactic(auto)]

mod build;
mod building;
mod check;
mod fault;
mod head;
mod latch;
mod model_names;
mod part;
mod reader;
mod row;
mod skipped;
mod state;
mod step;
mod subckt;
mod word;

pub use fault::{BlifFault, BlifKind, BlifRefusal};
pub use reader::read;
