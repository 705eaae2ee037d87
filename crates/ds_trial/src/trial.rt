//! A run of the program over files in memory.
use ds_app::desync_main;
use ds_base::{Name, OutOfMemory, Seq};
use ds_outside::{Entry, Gate, MemoryFiles, MemorySink, OpenGate};
use std::alloc::{AllocError, Global};
use std::thread::Threads;

// A text as a list of bytes.
fn bytes(alloc: Global, text: &str) -> Result<Name, AllocError> {
    Ok(Seq::of(Vec::from_slice(alloc, text.as_bytes())?))
}

/// Files with these names and texts. Of two with one name the first counts.
pub fn files(alloc: Global, all: &[(&str, &str)]) -> Result<MemoryFiles, AllocError> {
    let mut entries = Vec::new(alloc);
    for (name, text) in all {
        entries.push(Entry {
            name: bytes(alloc, name)?,
            content: bytes(alloc, text)?,
        })?;
    }
    Ok(MemoryFiles::of(alloc, entries))
}

/// What a run is to give: its status, and a text on its output where that is 0, else on its error
/// output. The other one stays empty.
#[derive(Clone, Copy)]
pub struct Wanted<'t> {
    pub status: u8,
    pub text: &'t str,
}

impl Wanted<'_> {
    // Whether a run gave this.
    fn is_given(&self, status: u8, outputs: &Outputs) -> bool {
        let (out, err) = (outputs.out.bytes(), outputs.err.bytes());
        let text = if status == 0 { out } else { err };
        let other = if status == 0 { err } else { out };
        status == self.status && text == self.text.as_bytes() && other.is_empty()
    }
}

// The output and the error output of a run.
struct Outputs {
    out: MemorySink,
    err: MemorySink,
}

impl Drop for Outputs {
    fn drop(self) {
        let Outputs { out: _, err: _ } = self;
    }
}

impl Outputs {
    // With room for so many bytes on the output.
    fn with_room(alloc: Global, room: usize) -> Result<Self, OutOfMemory> {
        Ok(Outputs {
            out: MemorySink::with_room(alloc, room)?,
            err: MemorySink::with_room(alloc, 1_000)?,
        })
    }

    // The status of a command line, its words parted by one space each, over these files, with
    // workers that pause at the gate.
    fn take<R: AllocGlobal + Threads + Sync, G: Gate>(
        &mut self,
        rt: &R,
        all: &[(&str, &str)],
        line: &str,
        gate: &G,
    ) -> Result<u8, OutOfMemory> {
        let words: Vec<&str> = line.split(' ').collect(rt.alloc())?;
        let mut files = files(rt.alloc(), all)?;
        let (out, err) = (&mut self.out, &mut self.err);
        Ok(desync_main(rt, &words, &mut files, out, err, gate))
    }
}

/// Whether a command line, its words parted by one space each, gives what is wanted of these files.
pub fn gives<R: AllocGlobal + Threads + Sync>(
    rt: &R,
    all: &[(&str, &str)],
    line: &str,
    wanted: Wanted<'_>,
) -> Result<bool, OutOfMemory> {
    let mut outputs = Outputs::with_room(rt.alloc(), 100_000)?;
    let status = outputs.take(rt, all, line, &OpenGate)?;
    Ok(wanted.is_given(status, &outputs))
}

/// Whether a command line is refused with this text on the error output, behind an output that ends
/// with that one.
pub fn is_refused<R: AllocGlobal + Threads + Sync>(
    rt: &R,
    all: &[(&str, &str)],
    line: &str,
    end: &str,
    fault: &str,
) -> Result<bool, OutOfMemory> {
    let mut outputs = Outputs::with_room(rt.alloc(), 1_000_000)?;
    let status = outputs.take(rt, all, line, &OpenGate)?;
    let (out, err) = (outputs.out.bytes(), outputs.err.bytes());
    Ok(status == 1 && out.ends_with(end.as_bytes()) && err == fault.as_bytes())
}

/// What a command line prints over these files, with workers that pause at the gate, where it ends
/// with status 0.
pub fn printed<R: AllocGlobal + Threads + Sync, G: Gate>(
    rt: &R,
    all: &[(&str, &str)],
    line: &str,
    gate: &G,
) -> Option<String> {
    let mut outputs = Outputs::with_room(rt.alloc(), 1_000_000).ok()?;
    let status = outputs.take(rt, all, line, gate).ok()?;
    let text = str::from_utf8(outputs.out.bytes()).ok()?;
    if status == 0 {
        String::from_str(rt.alloc(), text).ok()
    } else {
        None
    }
}
