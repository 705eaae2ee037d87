use crate::Turn;
use crate::scheduler::Scheduler;
use crate::worker::Worker;
use ds_fabric::Pass;

/// Workers with what they share, the turn that is left, and the vector in which the passes come
/// back.
#[derive(Drop)]
pub struct WorkerPool {
    pub scheduler: Scheduler,
    pub turn: Turn,
    pub workers: Vec<Worker>,
    pub passes: Vec<Pass>,
}
