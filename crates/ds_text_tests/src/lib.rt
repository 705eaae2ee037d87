//! Texts that are read and written, and command lines that are taken or refused, worked by hand:
//! values from outside for `ds_cmd`, `ds_lines`, `ds_blif`, `ds_rows`, `ds_stream` and `ds_astg`,
//! whose calls are proved. Nothing stands on this crate.
#![tactic(auto)]

#[cfg(test)]
mod blif_tests;
#[cfg(test)]
mod command_words;
#[cfg(test)]
mod graph_read_tests;
#[cfg(test)]
mod graph_write_tests;
#[cfg(test)]
mod line_tests;
#[cfg(test)]
mod pipe;
#[cfg(test)]
mod refused_command_tests;
#[cfg(test)]
mod row_tests;
#[cfg(test)]
mod stream_tests;
#[cfg(test)]
mod taken_command_tests;
