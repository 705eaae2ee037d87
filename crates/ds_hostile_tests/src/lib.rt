//! Tests of the program as a whole in a hostile outside: its top call over files and outputs that
//! fail, that give and take little at a time, and that are cut.
//!
//! Nothing stands on this crate. `Watched` is a double of the files that tells which read was the
//! last one, `Trial` one run over such files and two outputs, and `Jobs` has the command lines
//! whose reads and writes fail in turn, with what they write where none does. Gates that hold
//! workers back where they stand in their way are tested here too. That memory may be refused is
//! seen on the built program alone.
#![tactic(auto)]

#[cfg(test)]
mod cut_tests;
#[cfg(test)]
mod failing_tests;
#[cfg(test)]
mod held_tests;
#[cfg(test)]
mod jobs;
#[cfg(test)]
mod trial;
#[cfg(test)]
mod watched;
