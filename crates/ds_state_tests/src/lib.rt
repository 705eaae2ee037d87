//! Tests of the program as a whole, of what is held: by nets that are settled, by registers where a
//! run is stopped or a log has led, and by open latches.
//!
//! Nothing stands on this crate. Most tests are texts that tell runs, which `ds_trial` plays. The
//! other tests stop workers at each number, fire what they print again, compare the values of nets
//! with a plain slow way, and write the line of a firing. Tests of whole runs stand in
//! `ds_run_tests` and `ds_jobs_tests`.
#![tactic(auto)]

#[cfg(test)]
mod line_tests;
#[cfg(test)]
mod open_tests;
#[cfg(test)]
mod replay_tests;
#[cfg(test)]
mod settle_tests;
#[cfg(test)]
mod shown_tests;
#[cfg(test)]
mod stop_tests;
#[cfg(test)]
mod stopped_tests;
