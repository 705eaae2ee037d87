//! A run of the program whose files and outputs may be told to fail.
use crate::watched::Watched;
use ds_app::desync_main;
use ds_base::OutOfMemory;
use ds_outside::{MemoryFiles, MemorySink, OpenGate};
use ds_trial::files;
use std::alloc::Global;
use std::thread::Threads;

/// The files, the output and the error output of a run.
pub struct Trial {
    pub files: Watched<MemoryFiles>,
    pub out: MemorySink,
    pub err: MemorySink,
}

impl Drop for Trial {
    fn drop(self) {
        let Trial {
            files: _,
            out: _,
            err: _,
        } = self;
    }
}

impl Trial {
    /// Over files with these names and texts.
    pub fn new(alloc: Global, all: &[(&str, &str)]) -> Result<Self, OutOfMemory> {
        Ok(Trial {
            files: Watched::new(files(alloc, all)?),
            out: MemorySink::with_room(alloc, 1_000_000)?,
            err: MemorySink::with_room(alloc, 1_000)?,
        })
    }

    /// The status of a command line, its words parted by one space each.
    pub fn take<R: AllocGlobal + Threads + Sync>(
        &mut self,
        rt: &R,
        line: &str,
    ) -> Result<u8, OutOfMemory> {
        let words: Vec<&str> = line.split(' ').collect(rt.alloc())?;
        let (files, out, err) = (&mut self.files, &mut self.out, &mut self.err);
        Ok(desync_main(rt, &words, files, out, err, &OpenGate))
    }

    /// Whether these bytes stand on the output, and nothing on the error output.
    pub fn has_written(&self, text: &[u8]) -> bool {
        self.out.bytes() == text && self.err.bytes().is_empty()
    }

    /// Whether these bytes stand on the error output, and nothing on the output.
    pub fn has_reported(&self, text: &[u8]) -> bool {
        self.err.bytes() == text && self.out.bytes().is_empty()
    }
}
