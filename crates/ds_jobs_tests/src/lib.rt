//! Tests of the workers of `run` and `demo`, and of the logs that they print, over files in memory.
//!
//! Nothing stands on this crate. The tests hold workers at the gate, run by many numbers of them,
//! with slack and over several windows of vectors, and fire printed logs again. Tests of the traces
//! stand in `ds_run_tests`, those of runs that are stopped in `ds_state_tests`.
#![tactic(auto)]

#[cfg(test)]
mod demo_tests;
#[cfg(test)]
mod gate_tests;
#[cfg(test)]
mod jobs_tests;
#[cfg(test)]
mod slack_tests;
#[cfg(test)]
mod window_tests;
