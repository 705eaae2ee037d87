//! Groups of a design's registers, as lines name them.
//!
//! Each line is a group, and each of its words the name of a register or a pattern, in which a star
//! stands for any bytes. A word takes the registers that it means and that no earlier word has
//! taken. A caller sees `Groups` as a list of lists of registers: none is empty, the registers of
//! each rise, and no register stands in two. `read_groups` gives exactly those that `specs/Read`
//! computes, or the first fault: a word that means no register, or only registers that are taken.
//! Registers are found by the hash of their nets' copies and names, and a pattern goes along a name
//! in time linear in it. `laws` says what follows: a text matches a pattern exactly where the
//! pattern's pieces stand in it in a row, and the text that shows clusters is read as groups that
//! are these clusters.
//!
//! Not promised: when memory is wanted.
#![tactic(auto)]

mod copy;
mod falls;
mod fault;
mod groups;
mod holders;
mod key;
mod keys;
pub mod laws;
mod members;
mod named;
mod net_index;
mod pattern;
mod reader;
mod stand;
mod tail;
mod taking;
mod word;

pub use fault::{GroupFault, GroupKind, GroupRefusal};
pub use groups::Groups;
pub use reader::read_groups;
