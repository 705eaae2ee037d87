//! The logical lines of a text, for netlists, graphs, vectors and logs, and the names in it.
//!
//! A comment runs from `#` to the end of its line, a `\` at the end of a line joins the next one,
//! and a line without words is none. A caller sees `Lines` as a list of lines, each the number of
//! its first physical line and its words. `lines` gives exactly the lines that the text stands for,
//! and refuses a text exactly where it is too long. `Lines::line`, `word`, `words` and `number`
//! lend parts of a line: the words are slices of the text. `word` and `name` lend and copy a word,
//! and `place_of` finds a byte in one. What is wrong with a line is an `At`, its number and a kind.
//! `trim` says what is cut at the end of a physical line, for readers that have no whole text.
//! `laws` says what follows: joined lines are one text with a blank between, what is printed is
//! read, a text may be read in two parts.
//!
//! Not promised: an encoding. A word is bytes.
//!
//! Words in the order of their first appearance, each once. A caller sees `Names` as the list of
//! the words; the number of a word is its place in the list. `Names::insert` adds a word where it
//! is not there yet, and gives its place; `Names::name` lends the word at a place; `Names::place`
//! finds a word, and gives how many there are where it is missing. The words are slices of the
//! caller's text, found by their hash; nothing is copied.
#![tactic(auto)]

mod at;
mod draft;
pub mod laws;
mod line;
mod list;
mod names;
mod reader;
mod span;
mod words_of_line;

pub use at::{At, on_line};
pub use line::{blank, place_of, trim};
pub use list::Lines;
pub use names::Names;
pub use reader::{LinesFault, lines};
pub use words_of_line::{name, word};
