//! Tests of the program as a whole, of `run`, of traces, of the faults of netlists and vectors, and
//! of netlists that are deep or long: its top call over files in memory.
//!
//! Nothing stands on this crate. Most tests are texts that tell runs, which `ds_trial` plays. The
//! other tests make long texts, or let writes fail. Tests of workers and of windows stand in
//! `ds_jobs_tests`, of runs that are stopped in `ds_state_tests`, of graphs in `ds_tests`.
#![tactic(auto)]

#[cfg(test)]
mod fault_tests;
#[cfg(test)]
mod long_tests;
#[cfg(test)]
mod output_tests;
#[cfg(test)]
mod run_tests;
#[cfg(test)]
mod trace_tests;
#[cfg(test)]
mod unknown_tests;
#[cfg(test)]
mod window_tests;
