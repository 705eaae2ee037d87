//! The values of all nets in one turn, or of those that some nets depend on.
//!
//! `settle` lets a row be the one valuation of a netlist for a state and a vector: columns and
//! registers have their values, each table's output has the value of the table, and a net that
//! nothing drives is 0. It evaluates each table once, in an order in which a table comes after
//! those that drive its inputs, and takes no memory. A `Finder` gives the `Cone` of some nets: the
//! tables that reach them and the sources at which that begins. `settle_part` evaluates the tables
//! of a cone alone, and where the sources have the values of a turn, so have the nets then
//! (`laws`). The order of the sources, and that of the tables of one level, is not promised.
#![tactic(auto)]

mod cone;
mod drivers;
mod finder;
pub mod laws;
mod marks;
mod part;
mod pick;
mod turn;
mod walk;

pub use cone::Cone;
pub use drivers::drivers_of;
pub use finder::{Finder, cone_of};
pub use part::settle_part;
pub use pick::{pick_data, pick_values, set_initial};
pub use turn::settle;
