//! Laws of designs and graphs, on which nothing of the program stands. They follow from the
//! definitions alone: many say that something exists, and not that a call finds it. Each law is the
//! contract of a function that does nothing.
//!
//! Of designs: one whose numbers name what is there is accepted or has a fault, and an accepted one
//! has a depth. Of graphs: there are ranks or a cycle; there are least sums of tokens, so it is
//! decided whether some walk has few; a graph is acceptable or has a fault, and an acceptable one
//! has a plan. Of split designs: registers have clusters, and data edges can be listed; the
//! required orders are too many, or there is a controller graph, with two arcs for each node and
//! two for each data edge.
//!
//! Of periods: where each closed walk has a token and some closed walk has an arc, there is one;
//! its ratio is the greatest of all closed walks, and two periods differ in the cycle alone. Of
//! schedules: a graph in which nothing waits for itself has exactly one, with the earliest times;
//! its firings, turn by turn or by time, are a legal list, which in a plan follows the clock, and a
//! period paces it.
#![tactic(auto)]

mod clocked;
mod decided_graphs;
mod designs;
mod fewest;
mod listed;
mod paced;
mod periods;
mod plans;
mod ranks;
mod single_period;
mod single_schedule;
mod splits;
mod walks;

pub use clocked::{listed_follow_clock, timed_follow_clock};
pub use decided_graphs::{events_are_decided, graphs_are_decided};
pub use designs::{designs_are_decided, designs_have_depth};
pub use fewest::{cycles_go_by_fewest_tokens, delays_are_alike};
pub use listed::{
    events_have_one_order, listed_are_legal, listed_are_numbered, timed_are_legal, turns_are_listed,
};
pub use paced::{cycles_pace_times, periods_bound_times};
pub use periods::{delays_are_one_each, graphs_have_periods, periods_exist, plans_are_timed};
pub use plans::acceptable_graphs_have_plans;
pub use ranks::{events_have_ranks_or_cycle, live_graphs_have_ranks, ranks_or_cycle};
pub use single_period::{
    cycles_are_slowest, graphs_have_one_period, one_period, periods_are_greatest,
};
pub use single_schedule::{
    graphs_have_one_schedule, live_graphs_have_one_schedule, schedules_are_earliest,
    times_never_fall,
};
pub use splits::{
    clusterings_exist, controllers_are_counted, controllers_exist, edges_are_listed,
    grouped_clusterings_exist, splits_are_decided,
};
pub use walks::{least_is_shown, least_sums_exist, walks_are_decided};
