//! The checks of a netlist, and the levels of its nets.
//!
//! A design stands for a circuit. `levelise` says whether the circuit is accepted: whether it has
//! one clock and one edge, a clock that is neither driven nor used, one driver for each net that is
//! used and none with two, and no combinational cycle. It gives either a `Netlist` of that same
//! design, with its columns, the level of each net, its tables by level and packed, or the design
//! back and its one fault, the first in the order of `NetFault`; of several cycles it may show any.
//! The laws say that a fault is never shown for an accepted circuit and that there is one fault at
//! most. A `Memory` fault says nothing of the circuit.
#![tactic(auto)]

mod check;
mod clock;
mod counts;
mod drivers;
mod fault;
mod faults;
pub mod laws;
mod levels;
mod lists;
mod order;
mod packed;

pub use check::levelise;
pub use fault::{Driver, NetFault};
