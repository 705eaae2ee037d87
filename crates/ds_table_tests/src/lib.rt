//! The happy path of each call of `ds_fabric` and `ds_runner`, worked by hand: a register that
//! turns over each turn, run on one pass and on two, and what its record then holds; and three
//! nodes that fire freely, whose passes go through a turnstile, on one thread and on two, and what
//! its turns then made. `specs/Toggle` and `specs/Trio` have the runs, and what their passes and
//! turns hold. Nothing stands on this crate.
#![tactic(auto)]

#[cfg(test)]
mod hand;
#[cfg(test)]
mod pass_tests;
#[cfg(test)]
mod run_tests;
#[cfg(test)]
mod toggle;
#[cfg(test)]
mod trio;
#[cfg(test)]
mod turn_tests;
