//! Large designs with vectors, each made of a number; and sums of texts.
//!
//! `make` gives a design of so many registers and vectors of so many turns. Each register takes a
//! table of three inputs, and each input is a column or a register; the words of `SplitMix64` from
//! the seed say which, what the tables compute, how the registers start and what the vectors are.
//! A caller sees both as functions of the seed (`specs/Demo`). As laws such a design is accepted,
//! and its vectors have its columns. Nothing but want of memory refuses.
//!
//! A `Fold` adds up the bytes of a text, each times its place, so that two long texts are compared
//! by a number. A caller sees the sum and the place of the last byte. Texts of one sum may differ.
#![tactic(auto)]

mod demo;
mod fold;
pub mod laws;
mod parts;
mod rows;

pub use demo::make;
pub use fold::Fold;
