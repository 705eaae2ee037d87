//! Scripts: texts that tell runs of the program, and what these are to give.
//!
//! Each part of a script begins with `%`, and its first line says what its further lines are:
//!
//! | First line | Further lines |
//! |---|---|
//! | `%NAME` | what stands in the file NAME from here on |
//! | `%$ WORDS` | none: it is a command line, its words parted by one space each |
//! | `%= STATUS` | what each command line since the last such part writes |
//!
//! It is written to the output where the status is 0, else to the error output, and nothing to the
//! other one. A first line `%NAME < FILE` or `%= STATUS < FILE` stands for the text of FILE as it
//! is there: with the further lines behind it, or, where one of these is `=>`, with those behind
//! that line in place of those before it. A part `%$ < FILE` is all command lines of FILE. The
//! files of the module `texts` are there from the start.
use crate::spelled::spelled_out;
use crate::trial::{Wanted, gives};
use ds_base::OutOfMemory;
use std::alloc::Global;
use std::test::Fail;
use std::thread::Threads;

// What has been told so far.
#[derive(Drop)]
struct Script<'t> {
    // The newest first.
    files: Vec<(&'t str, &'t str)>,
    // Command lines that are yet to be run.
    lines: Vec<&'t str>,
    runs: usize,
}

impl<'t> Script<'t> {
    fn new(alloc: Global) -> Self {
        Script {
            files: Vec::new(alloc),
            lines: Vec::new(alloc),
            runs: 0,
        }
    }

    // The first part of a text that is none, or whose runs gave something else.
    fn first_wrong<R: AllocGlobal + Threads + Sync>(
        &mut self,
        rt: &R,
        text: &'t str,
    ) -> Result<Option<&'t str>, OutOfMemory> {
        for part in text.split('%') {
            if !self.take(rt, part)? {
                return Ok(Some(part));
            }
        }
        Ok(None)
    }

    // Whether so many runs were done, and none is left.
    fn is_over(&self, runs: usize) -> bool {
        self.lines.is_empty() && self.runs == runs
    }

    // Takes a part, and says whether it is one and its runs gave what they are to give.
    fn take<R: AllocGlobal + Threads + Sync>(
        &mut self,
        rt: &R,
        part: &'t str,
    ) -> Result<bool, OutOfMemory> {
        let Some((first, rest)) = part.split_once('\n') else {
            return Ok(part.is_empty());
        };
        if let Some(line) = first.strip_prefix("$ ") {
            self.lines.push(line)?;
            return Ok(rest.is_empty());
        }
        match first.strip_prefix("= ") {
            Some(status) => self.run(rt, status, rest),
            None => self.hold(first, rest),
        }
    }

    // Puts a file before all others, and says whether its name is one: it has no space.
    fn hold(&mut self, name: &'t str, text: &'t str) -> Result<bool, OutOfMemory> {
        self.files.insert(0, (name, text))?;
        Ok(!name.contains(' '))
    }

    // Whether each command line that is yet to be run gives this, and there is one.
    fn run<R: AllocGlobal + Threads + Sync>(
        &mut self,
        rt: &R,
        status: &str,
        text: &str,
    ) -> Result<bool, OutOfMemory> {
        let Ok(status) = status.parse::<u8>() else {
            return Ok(false);
        };
        let wanted = Wanted { status, text };
        let mut all = !self.lines.is_empty();
        for line in &self.lines {
            all = all && gives(rt, &self.files, line, wanted)?;
        }
        self.runs = self.runs.saturating_add(self.lines.len());
        self.lines.clear();
        Ok(all)
    }
}

/// Does all runs of a script, which are so many, and each of which gives what the script says. Else
/// the failure names the first part that is none or whose runs gave something else, or tells that
/// it is of their number.
pub fn play<R: AllocGlobal + Threads + Sync>(rt: &R, text: &str, runs: usize) -> Result<(), Fail> {
    play_behind(rt, "", text, runs)
}

/// Does all runs of a script, which are so many, behind parts with files that it uses.
pub fn play_behind<R: AllocGlobal + Threads + Sync>(
    rt: &R,
    before: &str,
    text: &str,
    runs: usize,
) -> Result<(), Fail> {
    let text = spelled_out(rt.alloc(), before, text)?;
    let mut script = Script::new(rt.alloc());
    match script.first_wrong(rt, text.as_str())? {
        None if script.is_over(runs) => Ok(()),
        wrong => Err(Fail::new(wrong.unwrap_or("another number of runs"))),
    }
}
