//! Workers on the shared table of a run: every event is fired as often as it may, by several
//! threads.
//!
//! `run` has as many workers as pay, by what its nodes cost; with a quota, or at most 16 nodes, as
//! many as jobs. It gives each node a pass of its own and puts these into a turnstile, from which
//! any worker takes the pass of any node that is due, steps it once or twice, and gives it back. A
//! worker looks first where it was told of a node, then among its own part of the nodes, then at
//! what others were told, then everywhere. It ends once all is done, or its budget is used up, of
//! takes, of firings or of looks in rounds without a take. Then the caller takes all passes in and
//! fires what is left. If no second worker pays it fires all, without turnstile, in an order of a
//! turn's events that is found beforehand, if there is one (`firing_order`). The record at the end
//! is that of one legal list in which each event stands as often as it may fire, whatever the gate
//! does and however threads are timed. With a quota each worker ends after so many firings, and the
//! caller fires only while fewer have fired in all: the list has that many events, or all, or more,
//! but at most as many for each worker. Nothing is promised of time, or of which worker fires what.
//!
//! A turnstile: any thread takes the pass of any node, one thread at a time. A `Turnstile` is seen
//! as its table, the passes that it was built with, and the number of all permits. It has a word
//! and a slot a node: the slot of a free node has its pass. A `Turn` shows its permits, the nodes
//! that it has out, each with its firings at the take, `made`, what the firings of the passes that
//! it gave back grew by, `won` and `missed`, the takes that had the pass and those that found it
//! out. `build` gives one turn with all permits, `split` and `join` pass permits on, `take` and
//! `give` move a pass, and `close` has all passes back, in order. Nothing is promised of who takes
//! what, or that a take wins while another turn has a permit.
#![tactic(auto)]

mod budget;
mod complete;
mod drive;
mod fired;
mod firing_order;
mod gather;
mod hints;
mod in_order;
mod make_pool;
mod parts;
mod plays;
mod quota_left;
mod round_robin;
mod scheduler;
mod search;
mod search_path;
mod seat_steps;
mod slots;
mod step_at_gate;
mod targets;
mod turn;
mod turn_view;
mod turnstile;
mod visit;
mod worker;
mod worker_pool;
mod workers;
mod workload;

pub use turn::Turn;
pub use turn_view::TurnView;
pub use turnstile::Turnstile;
pub use workers::{WorkerSettings, run};
