//! What follows of the texts that are read and written, on which nothing of the program stands;
//! each law is the contract of a function that does nothing.
//!
//! Of command lines, without what `clap` says: for each command a plain line is taken, with its
//! files, its numbers and its options, and no other name is. Of netlists: the models that lines
//! stand for are well formed, and are those of the lines in parts; the fault of a line is the first
//! in the one order of the format; what prints models is read as these. Of flat designs: their
//! nets, tables and registers are those of the copies, each once, in order; each number names what
//! is there; models that are said to be recursive are a circle; the line of each fault is that of
//! a command. Of marked graphs: what `ds_astg` writes is read as the same graph; what is read is
//! kept, and has an arc for each place of the text, with its tokens, and no other. Short texts of
//! each kind, worked by hand, stand for what they should.
#![tactic(auto)]

mod astg;
mod blif;
mod command_line;
mod flat;

pub use astg::{
    arcs_are_of_places, ends_are_read, events_are_read, graph_faults_are_worked, graphs_are_worked,
    places_are_read, read_graphs_are_kept, toggle_is_worked, tokens_are_read, written_is_read,
    written_text_is_read,
};
pub use blif::{
    fault_is_in_order, faults_are_worked, lines_stand_in_parts, models_are_well_formed,
    models_are_worked, printed_is_read, printed_text_is_read,
};
pub use command_line::{
    accept_is_taken, check_is_taken, clock_is_taken, clusters_is_taken, demo_is_taken,
    graph_is_taken, other_names_are_refused, period_is_taken, rate_is_taken, replay_is_taken,
    run_is_taken, times_is_taken,
};
pub use flat::{
    faults_are_on_lines, faults_have_lines, flat_designs_are_in_range, flat_designs_are_of_copies,
    flat_designs_are_worked, recursive_faults_are_circles,
};
