//! Copies of models, and the numbers of their nets.
//!
//! `flatten` gives the flat design of a text's models, or their first fault. The main model, the
//! first, is copy 0. Its commands are taken in order, and a use of a model takes that model's
//! commands in its place, as the next copy. A net is a copy with a name in it, or, where the name
//! is a connected formal of the copy, the net of the caller that it is connected to. Nets are
//! numbered as they first appear.
//!
//! A caller sees which design or fault it is by `flat_of` of specs/Copies, which gives one answer
//! for each list of models; by the laws of `ds_text_laws` each number in such a design names what
//! is there. Not promised is when memory is wanted.
#![tactic(auto)]

mod advance;
mod bare;
mod connect;
mod design_draft;
mod fault;
mod flat;
mod frame;
mod head;
mod lent;
mod library;
mod nets;
mod numbers;
mod open;
mod ports;
mod scope;
mod stack;
mod step;

pub use fault::{FlatFault, FlatKind, FlatRefusal};
pub use flat::flatten;
