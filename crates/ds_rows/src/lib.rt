//! Rows of values as text: the vectors of a run, the lines of its trace, of logs and of states.
//!
//! A caller sees vectors as a width and a list of rows of values, and a text as bytes.
//! `read_vectors` gives exactly the rows that the lines stand for, or exactly their first fault;
//! the characters `0`, `1` and `x` are values there, and no other one. `trace_line` and `end_line`
//! write exactly the line of a turn and the last line, or a first part of it where a write fails;
//! neither takes memory. What begins with `put` writes a piece of a text by a pen, such as a row,
//! the name of a register or one of these lines. `are_bits` and `values_of` read a word of such
//! characters. By the laws what prints rows is read as these rows.
//!
//! Lines of logs and of what latches have stored, written; `ds_replay` reads logs. `put_firing`
//! writes exactly the line of a firing, `put_open_line` that of what an open node shows,
//! `put_fired` how many firings there were; `firing_line` and `open_line` write theirs to a sink,
//! or a first part of it where a write fails. A caller sees stored values as rows that stand one
//! behind the other, as values (`put_at_place`) or as words of 32 values (`put_stored`). `homes_of`
//! finds in which cluster each register stands, and at which place; of the calls on logs and states
//! it alone takes memory. The line of a register, and that of all that a state has stored, are
//! those of `specs/StateText`. How many calls of the sink a line takes is not promised.
//!
//! Events by their texts, and the short numbers that stand beside them on a line. `texts_of` makes
//! the text of each event of a graph, and `Lookup` finds the first event with a text by its hash:
//! several events may be written alike. `short_value` is the number of one to ten digits. Logs of
//! firings and files of delays are read by these.
#![tactic(auto)]

mod at_place;
mod fault;
mod homes;
mod laws;
mod log;
mod lookup;
mod number;
mod reader;
mod register_name;
mod shown;
mod stored;
mod texts;
mod trace;
mod vector;

pub use at_place::put_at_place;
pub use fault::{VectorFault, VectorKind, VectorRefusal};
pub use homes::{Home, homes_of};
pub use laws::{printed_is_read, worked_vectors};
pub use log::{firing_line, put_fired, put_firing};
pub use lookup::Lookup;
pub use number::{is_short, short_value};
pub use reader::read_vectors;
pub use register_name::put_register_name;
pub use shown::{open_line, put_open_line};
pub use stored::put_stored;
pub use texts::texts_of;
pub use trace::{character, end_line, put_end_line, put_trace_line, put_values, trace_line};
pub use vector::{are_bits, values_of};
