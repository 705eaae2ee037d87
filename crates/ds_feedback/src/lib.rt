//! Which registers feed back, and an order of tables and registers where none does.
//!
//! A register is a delay: what it drives is its data net of the turn before. So a table or a
//! register, seen without what it computes, is a *link* from the nets that it reads to the one that
//! it drives. `sequence` gives an order in which each link comes behind those that drive what it
//! reads, so that whole windows of turns can be worked out link by link. It gives none where
//! links lead in a circle: then a register feeds back, on itself or through others. Time and room
//! are linear in the links up to a sort. Which order it gives of several is not promised.
#![tactic(auto)]

mod edges;
mod links;
mod order;
mod unclocked;

pub use unclocked::sequence;
