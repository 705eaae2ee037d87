//! Nodes that a worker was told of: the latest in hand, those before it in a deque, from which
//! other workers steal.

use crossbeam_deque::{Stealer, Worker};
use ds_base::OutOfMemory;
use std::alloc::Global;

// The slots of a deque at the start, and those with which it takes no more.
const FEW: usize = 256;

const MOST: usize = 65536;

/// Nodes that may be due, the latest first.
#[derive(Drop)]
pub struct Hints {
    kept: Option<u32>,
    // At least as many as the deque has.
    pushed: u64,
    deque: Worker<u32>,
}

impl Hints {
    /// No hint yet.
    pub fn of(alloc: Global) -> Result<Hints, OutOfMemory> {
        let deque = Worker::new_lifo(alloc, FEW)?;
        Ok(Hints {
            kept: None,
            pushed: 0,
            deque,
        })
    }

    /// A handle with which other workers steal.
    pub fn stealer(&self) -> Result<Stealer<u32>, OutOfMemory> {
        Ok(self.deque.stealer()?)
    }

    /// The node may be due. What the deque does not take is dropped.
    pub fn push(&mut self, node: u32) {
        if let Some(before) = self.kept {
            if self.deque.capacity() < MOST && self.deque.push(before).is_ok() {
                self.pushed = self.pushed.saturating_add(1);
            }
        }
        self.kept = Some(node);
    }

    /// The node told of last, of those that are left.
    pub fn pop(&mut self) -> Option<u32> {
        if self.kept.is_some() {
            return self.kept.take();
        }
        if self.pushed == 0 {
            return None;
        }
        let node = self.deque.pop();
        self.pushed = if node.is_some() { self.pushed - 1 } else { 0 };
        node
    }
}
