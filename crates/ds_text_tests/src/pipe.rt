//! A double of a pipe for tests: it gives its bytes once, in order, in small pieces.
ghost use Rattle.std.specs.Prelude.{◌≡◌, ◌≤◌, length};
ghost use Rattle.ds_outside.specs.Held.{untold};

use ds_outside::{Failed, Files, Which};
use std::alloc::{AllocError, Global};

/// Bytes that are read once. It tells no bytes, gives nothing at a place that is not the next one,
/// and shows how many it has given, and whether it was asked for others.
#[derive(Drop)]
pub struct Pipe {
    bytes: Vec<u8>,
    at: usize,
    most: usize,
    broken: bool,
}

impl Pipe {
    /// These bytes, of which a read gives at most so many.
    pub fn of(alloc: Global, bytes: &[u8], most: usize) -> Result<Self, AllocError> {
        Ok(Pipe {
            bytes: Vec::from_slice(alloc, bytes)?,
            at: 0,
            most,
            broken: false,
        })
    }

    /// How many bytes were given.
    pub fn given(&self) -> u64 {
        self.at as u64
    }

    /// Whether bytes were asked for that are not the next ones.
    pub fn is_broken(&self) -> bool {
        self.broken
    }
}

impl Files for Pipe {
    ghost held = { λ _ _. untold };

    ghost faults = { λ _ _ _. 0 };

    fn read_at(
        &mut self,
        _which: Which,
        _name: &str,
        at: u64,
        into: &mut [u8],
    ) -> Result<usize, Failed> {
        if at != self.at as u64 || self.at > self.bytes.len() {
            self.broken = true;
            return Ok(0);
        }
        let left = self.bytes.len() - self.at;
        let n = left.min(into.len()).min(self.most);
        into[..n].copy_from_slice(&self.bytes[self.at..self.at + n]);
        self.at += n;
        Ok(n)
    }
}
