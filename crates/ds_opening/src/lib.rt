//! What the openings of the nodes of a split design compute, turn by turn, in a row that remembers.
//!
//! A row is seen as the list of its values, and its words, 32 values each, as `packed` of it.
//! `groups_of` finds the groups of tables that exactly the same cones of the nodes have. `open`
//! computes the words of the row that a node takes, from the words of its producers' rows, each
//! behind its producer's number: where those are the values that the orders of the edges fix, the
//! row is the node's next value in the clocked run. It works in a row that remembers, for each
//! group and each node, of which turn it has the values (`specs/Noted`), so who opens many nodes
//! unpacks each row and sets each table once a turn, where no slack lets it come back to one; and a
//! group keeps its values where all that it reads is noted as what has stayed since the turn
//! before. Rows that are learnt so are not handed in again: `is_learnt` tells which. No graph, no
//! counts and no place of a row come into it, so threads may share the rows as they like. `open`
//! takes no memory. `laws` has how an order of the tables computes the values of a run.
//!
//! The tables of several cones in groups, so that each table is set once a turn. Two tables are in
//! one group where exactly the same cones have them. So a cone is some groups, and where two cones
//! meet, they share groups. `TableGroups::of` finds the groups of some cones and the list of groups
//! of each: set one after another, the tables of these groups are those of the cone, and none reads
//! what it or a later one drives. The groups have their numbers by how many cones lack them, the
//! fewest first: what a table reads is in each cone that has the table, so a list in the order of
//! numbers has each group behind those that it reads. `TableGroups::reads` lists the slots that a
//! group reads, each what another group drives or a list of nets that the caller gave: where
//! nothing in them has changed, the group may be left. It takes time linear in the cones and in the
//! inputs of tables up to the sorts of the tables and of the lists. Which number a group has is not
//! promised.
#![tactic(auto)]

mod classes;
mod cone_groups;
mod gaps;
mod lacking;
pub mod laws;
mod learning;
mod lists;
mod members;
mod net_slots;
mod opening;
mod packed;
mod ranked;
mod reads;
mod schedule;
mod table_groups;
mod table_numbers;

pub use cone_groups::groups_of;
pub use learning::is_learnt;
pub use opening::{Opening, open};
pub use table_groups::TableGroups;
