//! Tests of the whole program, of clusters that it makes and graphs that it makes, accepts and
//! times, over files in memory.
//!
//! Nothing stands on this crate. Most tests are texts that tell runs, which `ds_trial` plays. The
//! other tests make long texts and random designs, or compare the period with a plain slow way.
//! Tests of `run`, of traces and of the faults of netlists stand in `ds_run_tests` and
//! `ds_jobs_tests`, those of states in `ds_state_tests`.
#![tactic(auto)]

#[cfg(test)]
mod accept_tests;
#[cfg(test)]
mod cycle_tests;
#[cfg(test)]
mod dummy_tests;
#[cfg(test)]
mod graph_tests;
#[cfg(test)]
mod group_file_tests;
#[cfg(test)]
mod group_limit_tests;
#[cfg(test)]
mod group_name_tests;
#[cfg(test)]
mod groups_tests;
#[cfg(test)]
mod period_tests;
#[cfg(test)]
mod rate_tests;
#[cfg(test)]
mod shake_tests;
#[cfg(test)]
mod times_tests;
