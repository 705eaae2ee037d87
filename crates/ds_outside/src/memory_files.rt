//! A double of the system's files for tests: it can read in small pieces and fail where it is told
//! to.
ghost use Rattle.std.specs.Prelude.{◌≡◌, ◌+◌, ◌^◌, ◌<◌, ◌≤◌, ℕ, List, length, take, drop, ◌++◌};

use crate::entry::{copy_from, find};
use crate::{Entry, Failed, Faults, Files, Which};
use ds_base::OutOfMemory;
use std::alloc::Global;

/// Files in memory. Reads whose numbers are listed fail.
#[derive(Drop)]
pub struct MemoryFiles {
    entries: Vec<Entry>,
    calls: u64,
    failing: Vec<u64>,
    most: usize,
    faults: Faults,
    ghost gives_some: { 0 < most },
}

impl MemoryFiles {
    ghost use Rattle.ds_outside.specs.Memory.{held_in, faults_of};

    /// These files. Of two with one name the first counts.
    pub fn of(alloc: Global, entries: Vec<Entry>) -> Self
        ensures held { ⟦<MemoryFiles as Files>⟧.held result ≡ held_in entries.items }
        ensures no_fault { (w : _) (n : List ℕ) → ⟦<MemoryFiles as Files>⟧.faults result w n ≡ 0 }
    {
        MemoryFiles {
            entries,
            calls: 0,
            failing: Vec::new(alloc),
            most: usize::MAX,
            faults: Faults::none(),
        }
    }

    /// From now on a read gives at most so many bytes.
    pub fn at_most(&mut self, most: usize)
        requires { 0 < most }
        ensures held { ⟦<Self as Files>⟧.held self.new ≡ ⟦<Self as Files>⟧.held self.old }
        ensures faults { ⟦<Self as Files>⟧.faults self.new ≡ ⟦<Self as Files>⟧.faults self.old }
    {
        self.most = most;
    }

    /// Lets a read fail, counted from 0.
    pub fn fail_at(&mut self, call: u64) -> Result<(), OutOfMemory>
        ensures held { ⟦<Self as Files>⟧.held self.new ≡ ⟦<Self as Files>⟧.held self.old }
        ensures faults { ⟦<Self as Files>⟧.faults self.new ≡ ⟦<Self as Files>⟧.faults self.old }
    {
        self.failing.push(call)?;
        Ok(())
    }
}

impl Files for MemoryFiles {
    ghost use Rattle.ds_outside.specs.Memory.{held_in, faults_of};

    ghost held = { λ m name. held_in m.entries.items name };

    ghost faults = { λ m which name. faults_of m.faults which };

    fn read_at(
        &mut self,
        which: Which,
        name: &str,
        at: u64,
        into: &mut [u8],
    ) -> Result<usize, Failed> {
        let call = self.calls;
        self.calls = self.calls.saturating_add(1);
        if self.failing.contains(&call) {
            self.faults.raise(which);
            return Err(Failed);
        }
        match find(&self.entries, name) {
            None => {
                self.faults.raise(which);
                Err(Failed)
            }
            Some(held) => Ok(copy_from(held, at as usize, self.most, into)),
        }
    }
}
