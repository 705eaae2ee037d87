//! What the other crates share: values, rows of values, numbers of parts, names and small lists,
//! and a row to work in.
//!
//! A value is zero, one or unknown, with `and`, `or` and `not` over the three, and two bits, its
//! `code`, in a word. `Row3` is a row of values, which a caller sees as a list; `word` gives 32 of
//! them as a number, and `words_of` how many such words there are. `NetId` and the other ids are
//! numbers from 0 that are not mixed up. `Seq` is a list that is a part of another value, and a
//! `Name` is one of bytes. `Limit` says how many of what there may be.
//!
//! What takes memory answers `OutOfMemory` where none is found, and `Seq::push` hands the item back
//! then; when that is, nothing promises. A `Refusal` is a fault, or want of memory.
//!
//! A row to work in that remembers what it holds. Who computes rows of nets works in a row for all
//! of them. A `Scratch` is such a row, and beside it a turn for each slot: a slot is some of the
//! nets, and where its turn is not 0, these nets hold their values of that turn. So what was
//! computed once a turn need not be computed again. A caller sees it as a `Kept`, the values and
//! the turns; a `Memory` says which nets are in a slot and which values they have, and `Remembers`
//! that what is kept fits it.
//!
//! `Scratch::of` makes one that remembers nothing yet, `is_noted` asks whether a slot is noted for
//! a turn, `note` notes it for one, and `nets` and `nets_mut` lend the row. That a slot is noted
//! only once its nets hold the values is the caller's part. Who notes a slot says also whether it
//! has stayed, which is that its values are those of the turn before too; `has_stayed` asks that,
//! so that what is computed of slots that have stayed need not be computed again.
//!
//! Turns count from 1, and a slot's turn takes one byte: how many turns it comes after a base that
//! all slots share. So turns can be kept that lie less than 255 apart. Where a turn is noted that
//! lies further on, the base follows it, and slots of turns that lie 128 and more before it may be
//! forgotten; where one is noted that lies further back, all others are. What is forgotten is
//! computed again, and a slot never holds a turn that was not noted for it.
#![tactic(auto)]

mod list;
mod memory;
mod number;
mod refusal;
mod row3;
mod scratch;
mod value;

pub use list::Seq;
pub use memory::OutOfMemory;
pub use number::{ArcId, EventId, LatchId, Limit, Mode, NetId, RegId};
pub use refusal::Refusal;
pub use row3::{Row3, words_of};
pub use scratch::Scratch;
pub use value::Value;

/// A name as it stands in a file. No encoding is asked.
pub type Name = Seq<u8>;
