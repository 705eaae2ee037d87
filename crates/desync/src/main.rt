//! The command `desync`: netlists from files of the system, traces to its standard output.
//!
//! `main` takes the words of the command line, the files and the two outputs of the system, and
//! ends with the status that `ds_app::desync_main` answers. What a file of the system holds, and
//! what reaches a terminal, no clause says.
#![tactic(auto)]

use ds_app::{desync_main, lend_words};
use ds_outside::{HostFiles, HostOut, OpenGate, write_all};
use std::alloc::{AllocError, Global};
use std::env;
use std::env::Args;
use std::io::ErrorKind;
use std::process::ExitCode;
use std::thread::Threads;

fn main(rt: HostRuntime) -> ExitCode {
    match words_given(&rt) {
        Ok(words) => do_words(&rt, &rt, &words),
        Err(AllocError) => say_memory(&rt),
    }
}

// Does the job that the words ask for, with the files and outputs of the system and threads of
// `rt`.
fn do_words<R: AllocGlobal + Threads + Sync>(
    host: &HostRuntime,
    rt: &R,
    words: &[String],
) -> ExitCode {
    match lend_words(rt.alloc(), words) {
        Ok(all) => ExitCode::from(status_of(host, rt, &all)),
        Err(AllocError) => say_memory(host),
    }
}

// The status that the job ends with.
fn status_of<R: AllocGlobal + Threads + Sync>(host: &HostRuntime, rt: &R, texts: &[&str]) -> u8 {
    let mut files = HostFiles::new(host);
    let mut out = HostOut::new(host.stdout());
    let mut err = HostOut::new(host.stderr());
    desync_main(rt, texts, &mut files, &mut out, &mut err, &OpenGate)
}

// Says that the words found no place in memory, and gives the status 4, as `desync_main` does.
fn say_memory(rt: &HostRuntime) -> ExitCode {
    let mut err = HostOut::new(rt.stderr());
    match write_all(&mut err, b"desync: out of memory\n") {
        Ok(()) | Err(_) => ExitCode::from(4),
    }
}

// The words of the command line: none where some are not text, which is no command line.
fn words_given(rt: &HostRuntime) -> Result<Vec<String>, AllocError> {
    match env::args(rt) {
        Ok(given) => words_in(rt.alloc(), given),
        Err(fault) => match fault.kind() {
            ErrorKind::OutOfMemory => Err(AllocError),
            _ => Ok(Vec::new(rt.alloc())),
        },
    }
}

// The words that the system gave, in their order.
fn words_in(alloc: Global, given: Args) -> Result<Vec<String>, AllocError> {
    let mut words = Vec::new(alloc);
    for word in given {
        words.push(word)?;
    }
    Ok(words)
}
