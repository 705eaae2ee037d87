//! The value of a table for the values of its inputs.
//!
//! A table is a cover (BLIF manual, logic gates): rows of one character per input that list where
//! its output is 1, or where it is 0. A caller sees it as these rows. `Table::value` gives its
//! value on a row of nets, some of which may be unknown: 1 where some row matches, 0 where none
//! can, and unknown where that depends on an unknown net; the inverse of it for rows that list the
//! zeros.
//!
//! `Packed` is the same function of the nets, its rows as words of bits: `Packed::value` reads up
//! to 64 inputs at once, and a table of up to six inputs that are all known has its value in one
//! word. A `Bank` keeps many of them by their numbers, with the nets that they drive; `set` and
//! `set_all` give these nets their values. `Bank::quick` lends the word of a table, and
//! `Bank::word` gives that of 27 rows of three values, which is exact for unknown values too.
//!
//! `laws` has what follows from that meaning alone. That the characters of a row are `0`, `1` or
//! `-` is not asked: another one matches no known value.
//!
//! The tables of a bank in the order in which they are set, those of up to six inputs in lists by
//! kind. A `Series` keeps a bank and an order of its tables; `Selections` keep several lists of
//! some tables of a bank that is lent. `Series::set_all` and `Selections::set` give what the tables
//! of the order or of a list drive its value, one after another: they read lists of nine values, or
//! words of 27, that are exact for unknown values too. `Series::set_all_known`, where each table
//! finds its inputs known, reads short words. All set the same as the bank does, table by table.
#![tactic(auto)]

mod bank;
mod entry;
mod entry_value;
pub mod laws;
mod lists;
mod mask;
mod nine;
mod packed;
mod rows;
mod run;
mod selections;
mod series;
mod shelf;
mod small;
mod table;
mod ternary;
mod truth;
mod value_word;
mod wide;

pub use bank::Bank;
pub use entry::Quick;
pub use entry_value::value_of_bit;
pub use packed::Packed;
pub use selections::Selections;
pub use series::Series;
pub use table::Table;
