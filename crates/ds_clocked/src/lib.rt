//! Clocked simulation: a netlist run turn by turn on vectors, and its trace.
//!
//! In each turn the nets take the one valuation of the registers and the vector, a line with the
//! outputs and the registers is written, and each register takes the value of its data net.
//!
//! Where no register feeds back and no value of a window is unknown, 64 turns are worked out at
//! once, in words. Feedback is looked for once, in the first such window of 1,024 turns or more.
//! If more than one table in sixteen has over six inputs, all goes turn by turn.
//!
//! `simulate_from` writes the lines of a window, from any row and turn number on, and gives the row
//! after it. A `ClockedNetlist` keeps the words from window to window. The call answers `Write`
//! only where the sink's faults rose, and then a first part of the lines was appended; on `Memory`
//! nothing was. `laws` has what a reader of traces may rely on where some values are unknown: known
//! ones in their place change no other character. When memory is found is not promised.
#![tactic(auto)]

mod clocked_netlist;
pub mod laws;
mod run;
mod words;

pub use clocked_netlist::ClockedNetlist;
pub use run::{SimFault, simulate_from};
