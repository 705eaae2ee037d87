//! Runs of the program over files in memory, for the tests of it as a whole.
//!
//! `gives` does one run and says whether it gives what is wanted, `printed` has what a run writes,
//! and `is_refused` says whether a run stops at a fault behind what it has written. `play` takes a
//! script, a text that tells runs: which files there are, which command lines are given, and what
//! each of these answers and leaves on its outputs. A part of the script that is told wrong, or
//! whose runs gave something else, is the failure of the test that plays it. Texts that many tests
//! use stand here, each as a file that is there from the start; `chain` and `tangle` make netlists.
//! Nothing is promised by contracts: the calls of the program below promise, and the tests above
//! compare.
#![tactic(auto)]

mod made;
mod script;
mod spelled;
mod texts;
mod trial;

pub use made::{chain, tangle};
pub use script::{play, play_behind};
pub use texts::{EXPANSION, GRAPH, RANKS, RING, SHIFT, TOGGLE};
pub use trial::{Wanted, files, gives, is_refused, printed};
