//! Reads and writes that fail in turn, and ones of a single byte.
use crate::jobs::{FAULTS, Jobs, LINES, is_stopped};
use crate::trial::Trial;
use crate::watched::Watched;
use ds_base::OutOfMemory;
use ds_outside::{MemoryFiles, Which};
use itoa::Buffer;
use std::alloc::{AllocError, Global};
use std::test::Fail;
use std::thread::Threads;

// How many vectors there are: a window and four more.
const MANY: usize = 4_100;

// How many vectors a window has, and how many bytes of the file.
const WINDOW: usize = 4_096;

const WINDOW_BYTES: u64 = 8_192;

// A text so many times.
fn times(alloc: Global, text: &str, count: usize) -> Result<String, AllocError> {
    let mut all = String::new(alloc);
    for _ in 0..count {
        all.push_str(text)?;
    }
    Ok(all)
}

// The lines of the toggle in so many turns where its input is 1.
fn turns(alloc: Global, count: usize) -> Result<String, AllocError> {
    let mut lines = String::new(alloc);
    let mut buffer = Buffer::new();
    for turn in 0..count {
        lines.push_str(buffer.format(turn as u64))?;
        lines.push_str(if turn % 2 == 0 { " 0 0\n" } else { " 1 1\n" })?;
    }
    Ok(lines)
}

// Many vectors that are 1, and the lines of the first window.
struct Many {
    jobs: Jobs,
    window: String,
}

impl Drop for Many {
    fn drop(self) {
        let Many { jobs: _, window: _ } = self;
    }
}

impl Many {
    fn new(alloc: Global) -> Result<Self, AllocError> {
        let mut trace = turns(alloc, MANY)?;
        trace.push_str("end 0\n")?;
        let mut last = String::from_str(alloc, "q: ")?;
        last.push_str(times(alloc, "10", MANY / 2)?.as_str())?;
        last.push_str("\nfired 32800 of 32800\n")?;
        let jobs = Jobs {
            vectors: times(alloc, "1\n", MANY)?,
            trace,
            first: String::from_str(alloc, "q: 1\nfired 8 of 32800\n")?,
            last,
        };
        Ok(Many {
            jobs,
            window: turns(alloc, WINDOW)?,
        })
    }

    // What a command line has written where it stopped at the last read.
    fn written(&self, line: &str, files: &Watched<MemoryFiles>) -> &[u8] {
        let runs = line.starts_with("desync run") && !is_stopped(line);
        let streams = runs || line.starts_with("desync clock");
        if streams && files.which() == Which::Vectors && files.at() >= WINDOW_BYTES {
            self.window.as_str().as_bytes()
        } else {
            b""
        }
    }
}

// What is reported where the last read failed.
fn unread(files: &Watched<MemoryFiles>) -> &'static [u8] {
    match files.which() {
        Which::Net => b"desync: cannot read tog\n",
        Which::Graph => b"desync: cannot read g\n",
        Which::Vectors => b"desync: cannot read v\n",
        Which::Log => b"desync: cannot read l\n",
        Which::Delays => b"desync: cannot read d\n",
        Which::Groups => b"desync: cannot read gr\n",
    }
}

// How many reads of a command line fail in turn, at most 1,000 bytes each, until a run meets no
// stop; none where one of the runs leaves anything else than it is to leave.
fn failed_reads<R: AllocGlobal + Threads + Sync>(
    rt: &R,
    many: &Many,
    line: &str,
) -> Result<Option<u64>, OutOfMemory> {
    for k in 0..100 {
        let mut trial = Trial::new(rt.alloc(), &many.jobs.files())?;
        trial.files.inner.at_most(1_000);
        trial.files.inner.fail_at(k)?;
        let status = trial.take(rt, line)?;
        let (out, err) = (trial.out.bytes(), trial.err.bytes());
        if status == 0 {
            let whole = err.is_empty() && many.jobs.is_whole(rt, line, out)?;
            return Ok(if whole { Some(k) } else { None });
        }
        let files = &trial.files;
        if status != 3 || err != unread(files) || out != many.written(line, files) {
            return Ok(None);
        }
    }
    Ok(None)
}

// A file is read in as many pieces as it has thousands of bytes, or more.
#[test]
fn each_read_fails_in_turn(rt: HostRuntime) -> Result<(), Fail> {
    let many = Many::new(rt.alloc())?;
    let least = [
        10u64, 11, 10, 10, 10, 1, 1, 11, 2, 10, 1, 11, 11, 2, 2, 2, 4, 11, 2, 0,
    ];
    for (line, least) in LINES.split('\n').zip(least.iter()) {
        let reads = failed_reads(&rt, &many, line)?;
        assert!(rt; reads.is_some_and(|reads| reads >= *least), "{line}");
    }
    Ok(())
}

// Whether so many writes, of at most seven bytes each, can have left so much.
fn is_left(writes: u64, out: &[u8]) -> bool {
    let len = out.len() as u64;
    writes <= len && len <= writes.saturating_mul(7)
}

// How many writes of a command line fail in turn, seven bytes a call, until a run meets no stop;
// none where one of the runs leaves anything else than it is to leave.
fn failed_writes<R: AllocGlobal + Threads + Sync>(
    rt: &R,
    four: &Jobs,
    line: &str,
) -> Result<Option<u64>, OutOfMemory> {
    for k in 0..1_000 {
        let mut trial = Trial::new(rt.alloc(), &four.files())?;
        trial.out.at_most(7);
        trial.out.fail_at(k)?;
        let status = trial.take(rt, line)?;
        let (out, err) = (trial.out.bytes(), trial.err.bytes());
        if !is_left(k, out) || !four.is_begun(rt, line, out)? {
            return Ok(None);
        }
        if status == 0 {
            let whole = err.is_empty() && four.is_whole(rt, line, out)?;
            return Ok(if whole { Some(k) } else { None });
        }
        if status != 5 || err != b"desync: cannot write\n".as_slice() {
            return Ok(None);
        }
    }
    Ok(None)
}

// How many writes of a report fail in turn, seven bytes a call, until a run meets none that does;
// none where one of the runs answers another status or leaves anything else.
fn failed_reports<R: AllocGlobal + Threads + Sync>(
    rt: &R,
    four: &Jobs,
    part: &str,
) -> Result<Option<u64>, OutOfMemory> {
    let Some(fault) = fault_of(part) else {
        return Ok(None);
    };
    for k in 0..100 {
        let mut trial = Trial::new(rt.alloc(), &four.files())?;
        trial.out.fail_at(0)?;
        trial.err.at_most(7);
        trial.err.fail_at(k)?;
        let status = trial.take(rt, fault.line)?;
        let err = trial.err.bytes();
        if status != fault.status || !trial.out.bytes().is_empty() {
            return Ok(None);
        }
        if !is_left(k, err) || !fault.report.as_bytes().starts_with(err) {
            return Ok(None);
        }
        if err.len() == fault.report.len() {
            return Ok(Some(k));
        }
    }
    Ok(None)
}

// A command line with a fault.
#[derive(Clone, Copy)]
struct Fault<'t> {
    status: u8,
    line: &'t str,
    report: &'t str,
}

// The fault that a part of the table tells.
fn fault_of(part: &str) -> Option<Fault<'_>> {
    let (first, report) = part.split_once('\n')?;
    let (status, line) = first.split_once(' ')?;
    Some(Fault {
        status: status.parse::<u8>().ok()?,
        line,
        report,
    })
}

#[test]
fn each_write_fails_in_turn(rt: HostRuntime) -> Result<(), Fail> {
    let four = Jobs::four(rt.alloc())?;
    for line in LINES.split('\n') {
        let writes = failed_writes(&rt, &four, line)?;
        assert!(rt; writes.is_some_and(|writes| writes > 0), "{line}");
    }
    for part in FAULTS.split('%') {
        let writes = failed_reports(&rt, &four, part)?;
        assert!(rt; writes.is_some_and(|writes| writes > 0), "{part}");
    }
    Ok(())
}

// A run over files that give one byte a read, and outputs that take one a write.
fn by_bytes(alloc: Global, jobs: &Jobs) -> Result<Trial, OutOfMemory> {
    let mut trial = Trial::new(alloc, &jobs.files())?;
    trial.files.inner.at_most(1);
    trial.out.at_most(1);
    trial.err.at_most(1);
    Ok(trial)
}

// Whether a command line writes what it is to write byte by byte.
fn is_written<R: AllocGlobal + Threads + Sync>(
    rt: &R,
    jobs: &Jobs,
    line: &str,
) -> Result<bool, OutOfMemory> {
    let mut trial = by_bytes(rt.alloc(), jobs)?;
    let status = trial.take(rt, line)?;
    let whole = jobs.is_whole(rt, line, trial.out.bytes())?;
    Ok(status == 0 && whole && trial.err.bytes().is_empty())
}

// Whether a part of the table of faults is reported byte by byte.
fn is_reported<R: AllocGlobal + Threads + Sync>(
    rt: &R,
    jobs: &Jobs,
    part: &str,
) -> Result<bool, OutOfMemory> {
    let Some(fault) = fault_of(part) else {
        return Ok(false);
    };
    let mut trial = by_bytes(rt.alloc(), jobs)?;
    trial.out.fail_at(0)?;
    let status = trial.take(rt, fault.line)?;
    Ok(status == fault.status && trial.has_reported(fault.report.as_bytes()))
}

#[test]
fn bytes_come_and_go_one_by_one(rt: HostRuntime) -> Result<(), Fail> {
    let many = Many::new(rt.alloc())?;
    for line in LINES.split('\n') {
        assert!(rt; is_written(&rt, &many.jobs, line)?, "{line}");
    }
    for part in FAULTS.split('%') {
        assert!(rt; is_reported(&rt, &many.jobs, part)?, "{part}");
    }
    Ok(())
}
