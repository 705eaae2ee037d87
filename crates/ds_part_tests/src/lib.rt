//! Values, lists, rows and tables; marked graphs, ranks, schedules and walks on graphs of two and
//! three events; and the design, the vectors and the sums of a seed: for `ds_base`, `ds_cover`,
//! `ds_marked`, `ds_rank`, `ds_times`, `ds_accept` and `ds_demo`, whose calls are proved. Nothing
//! stands on this crate.
#![tactic(auto)]

#[cfg(test)]
mod cover_tests;
#[cfg(test)]
mod demo_tests;
#[cfg(test)]
mod graphs;
#[cfg(test)]
mod list_tests;
#[cfg(test)]
mod marked_tests;
#[cfg(test)]
mod rank_tests;
#[cfg(test)]
mod row_tests;
#[cfg(test)]
mod schedule_tests;
#[cfg(test)]
mod value_tests;
#[cfg(test)]
mod walk_tests;
