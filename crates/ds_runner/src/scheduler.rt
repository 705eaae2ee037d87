use crate::Turnstile;
use crossbeam_deque::Stealer;

/// What the workers share: the turnstile with the passes of all nodes, a handle to steal from each
/// worker's hints, and the number of the first arc from each event.
#[derive(Drop)]
pub struct Scheduler {
    pub stile: Turnstile,
    pub stealers: Vec<Stealer<u32>>,
    pub arcs_from: Vec<usize>,
}
