//! A double of the system's outputs for tests: it can write in small pieces and fail where it is
//! told to.
ghost use Rattle.std.specs.Prelude.{◌≡◌, ◌<◌, ◌≤◌, [], Some, length, take, IfOk};

use crate::{Sink, WriteFault};
use ds_base::OutOfMemory;
use std::alloc::Global;

/// A sink in memory. Writes whose numbers are listed fail, and so does one that finds no room.
#[derive(Drop)]
pub struct MemorySink {
    bytes: Vec<u8>,
    calls: u64,
    faults: u64,
    failing: Vec<u64>,
    most: usize,
    ghost takes_some: { 0 < most },
}

impl MemorySink {
    /// A sink that takes up to so many bytes, all of whose room is taken here.
    pub fn with_room(alloc: Global, room: usize) -> Result<Self, OutOfMemory>
        ensures empty { IfOk result (λ sink. ⟦<MemorySink as Sink>⟧.written sink ≡ Some []) }
        ensures no_fault { IfOk result (λ sink. ⟦<MemorySink as Sink>⟧.faults sink ≡ 0) }
    {
        Ok(MemorySink {
            bytes: Vec::with_capacity(alloc, room)?,
            calls: 0,
            faults: 0,
            failing: Vec::new(alloc),
            most: usize::MAX,
        })
    }

    /// From now on a write takes at most so many bytes.
    pub fn at_most(&mut self, most: usize)
        requires { 0 < most }
        ensures written { ⟦<Self as Sink>⟧.written self.new ≡ ⟦<Self as Sink>⟧.written self.old }
        ensures faults { ⟦<Self as Sink>⟧.faults self.new ≡ ⟦<Self as Sink>⟧.faults self.old }
    {
        self.most = most;
    }

    /// Lets a write fail, counted from 0.
    pub fn fail_at(&mut self, call: u64) -> Result<(), OutOfMemory>
        ensures written { ⟦<Self as Sink>⟧.written self.new ≡ ⟦<Self as Sink>⟧.written self.old }
        ensures faults { ⟦<Self as Sink>⟧.faults self.new ≡ ⟦<Self as Sink>⟧.faults self.old }
    {
        self.failing.push(call)?;
        Ok(())
    }

    /// The bytes so far.
    pub fn bytes(&self) -> &[u8]
        ensures { ⟦<MemorySink as Sink>⟧.written self.now ≡ Some result.now }
    {
        &self.bytes
    }
}

impl Sink for MemorySink {
    ghost written = { λ sink. Some sink.bytes.items };

    ghost faults = { λ sink. sink.faults };

    fn write(&mut self, piece: &[u8]) -> Result<usize, WriteFault> {
        let call = self.calls;
        self.calls = self.calls.saturating_add(1);
        let room = self.bytes.capacity() - self.bytes.len();
        let n = piece.len().min(self.most).min(room);
        if self.failing.contains(&call) || (n == 0 && !piece.is_empty()) {
            self.faults = self.faults.saturating_add(1);
            return Err(WriteFault);
        }
        match self.bytes.extend_from_slice(&piece[..n]) {
            Ok(()) => Ok(n),
            Err(_) => {
                self.faults = self.faults.saturating_add(1);
                Err(WriteFault)
            }
        }
    }
}
