//! Clusters of registers, and a netlist split into master and slave latches.
//!
//! `cluster` puts the registers of a netlist into clusters: each alone, all into one, or those that
//! drive one bus. `cluster_groups` does so with the registers that stand in no group, and makes a
//! cluster of each group. They answer `TooMany(Clusters)` exactly where there are more than 4,096.
//!
//! `split` gives the latch graph of a netlist and its clusters: a master and a slave for each
//! cluster, beside the vectors and the output row, and an edge from each node to those that read
//! it. A caller sees its definition, `Split` of ds_latch. It answers `TooMany(Arcs)` exactly where
//! the orders that the edges ask for are more than 1,048,576. When memory is wanted is not
//! promised.
//!
//! What a node of a split design takes from its producers, and the cone of each that settles. As it
//! opens, IN takes the next vector, a slave the row of its master, and OUT and the masters what
//! their nets settle to over the rows of their producers: for that the tables of one cone are
//! enough. `cones_of` finds these cones, those of OUT, M0, M1, .., one after another, in time
//! linear in their sizes up to the sorts of their tables, and `cone_place` tells where that of a
//! node stands. Where each producer shows the value that the orders of its edge fix, what the node
//! takes is its next value in the clocked run, and so is what its cone settles to, whatever the
//! other nets had (`laws`). In which order the sources of a cone stand, or its tables of one level,
//! is not promised.
#![tactic(auto)]

mod bus;
mod buses;
mod clusters;
mod cones;
mod edge_search;
mod edges;
mod fault;
mod graph;
mod grouping;
mod holders;
pub mod laws;
mod nets;
mod producers;
mod register_keys;

pub use clusters::Clusters;
pub use cones::{cone_place, cones_of};
pub use fault::SplitFault;
pub use graph::split;
pub use grouping::{cluster, cluster_groups};
