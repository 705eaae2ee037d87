//! Command lines whose reads and writes fail in turn, and what they write where none does.
use ds_base::OutOfMemory;
use ds_outside::OpenGate;
use ds_trial::{EXPANSION, GRAPH, RANKS, RING, TOGGLE, Wanted, gives, printed};
use std::alloc::{AllocError, Global};
use std::thread::Threads;

/// The command lines.
pub const LINES: &str = "desync run tog v
desync run tog v --graph g --jobs 2 --log
desync run tog v --stop 32800
desync run tog v --stop 32800 --jobs 2 --log
desync clock tog v
desync check tog
desync graph tog
desync replay tog v l
desync accept tog g
desync run tog v --slack 2 --clusters one
desync graph tog --shake
desync replay tog v l --slack 1
desync replay tog v l --transparent
desync period tog d
desync rate g d
desync times tog d 1
desync times tog d 1 --graph g --groups gr
desync run tog v --groups gr
desync clusters tog --groups gr
desync demo 0 2 3 --jobs 2";

/// Command lines with a fault, each behind its status, and what is reported of it. For the last one
/// the output is to fail.
pub const FAULTS: &str = "1 desync run ring v
ring: combinational cycle: y z
%1 desync clusters tog --groups v
v:1: unknown register 1
%1 desync rate v d
v:1: bad word 1
%2 desync
desync: bad command line
%3 desync run tog nofile
desync: cannot read nofile
%5 desync run tog v
desync: cannot write
";

// The log of the first turn.
const LOG: &str = "IN+ 1\nIN- 1\nOUT+ 1\nOUT- 1\nM0+ 1\nM0- 1\nS0+ 1\nS0- 1\n";

const DELAYS: &str = "M0+ S0+ 3\nS0+ M0+ 4\nM0+ M0- 2\n";

const PERIOD: &str = "period 7/1\ncycle M0+ S0+\npotential IN+ 0\npotential IN- 0\n\
     potential OUT+ 0\npotential OUT- 0\npotential M0+ 0\npotential M0- 2\npotential S0+ 3\n\
     potential S0- 3\n";

const TIMES: &str = "IN+ 1 0\nOUT+ 1 0\nIN- 1 0\nOUT- 1 0\nM0+ 1 0\nM0- 1 2\nS0+ 1 3\nS0- 1 3\n";

const GROUPS: &str = "q* # all\n";

const CLUSTERS: &str = "q # M0 S0\n";

const SUMS: &str = "turns 3\nfirings 36\nones 1\nfold 23695\n";

const REPORT: &str = "nets 3\ntables 1\nregisters 1\nlevels 1\n";

/// Vectors of the toggle, and what is written for them: the trace, what `replay` writes behind the
/// first turn, and what it writes behind all of them, as a run does that stops no earlier.
pub struct Jobs {
    pub vectors: String,
    pub trace: String,
    pub first: String,
    pub last: String,
}

impl Drop for Jobs {
    fn drop(self) {
        let Jobs {
            vectors: _,
            trace: _,
            first: _,
            last: _,
        } = self;
    }
}

impl Jobs {
    /// Four vectors.
    pub fn four(alloc: Global) -> Result<Self, AllocError> {
        Ok(Jobs {
            vectors: String::from_str(alloc, "1\n1\n0\n1\n")?,
            trace: String::from_str(alloc, "0 0 0\n1 1 1\n2 0 0\n3 0 0\nend 1\n")?,
            first: String::from_str(alloc, "q: 1\nfired 8 of 32\n")?,
            last: String::from_str(alloc, "q: 1001\nfired 32 of 32\n")?,
        })
    }

    /// The files of the command lines.
    pub fn files(&self) -> [(&str, &str); 7] {
        self.with_log(LOG)
    }

    // The files with this log.
    fn with_log<'x>(&'x self, log: &'x str) -> [(&'x str, &'x str); 7] {
        [
            ("tog", TOGGLE),
            ("ring", RING),
            ("g", GRAPH),
            ("v", self.vectors.as_str()),
            ("l", log),
            ("d", DELAYS),
            ("gr", GROUPS),
        ]
    }

    // What a command line writes, where it keeps a log before that.
    fn text<'x>(&'x self, line: &str) -> &'x str {
        match line.split(' ').nth(1) {
            Some("check") => REPORT,
            Some("graph") if line.ends_with(" --shake") => EXPANSION,
            Some("graph") => GRAPH,
            Some("accept") => RANKS,
            Some("period" | "rate") => PERIOD,
            Some("times") => TIMES,
            Some("clusters") => CLUSTERS,
            Some("demo") => SUMS,
            Some("replay") => self.first.as_str(),
            _ if is_stopped(line) => self.last.as_str(),
            _ => self.trace.as_str(),
        }
    }

    /// Whether a command line wrote all that it is to write. A log is to be one for `replay`.
    pub fn is_whole<'x, R: AllocGlobal + Threads + Sync>(
        &'x self,
        rt: &R,
        line: &str,
        out: &'x [u8],
    ) -> Result<bool, OutOfMemory> {
        let text = self.text(line);
        if !line.ends_with(" --log") {
            return Ok(out == text.as_bytes());
        }
        let Some(log) = log_behind(text, out) else {
            return Ok(false);
        };
        let wanted = Wanted {
            status: 0,
            text: self.last.as_str(),
        };
        gives(rt, &self.with_log(log), "desync replay tog v l", wanted)
    }

    /// Whether a command line wrote a first part of what it is to write. The whole lines of a log
    /// are to be ones that `replay` takes.
    pub fn is_begun<'x, R: AllocGlobal + Threads + Sync>(
        &'x self,
        rt: &R,
        line: &str,
        out: &'x [u8],
    ) -> Result<bool, OutOfMemory> {
        let text = self.text(line);
        if text.as_bytes().starts_with(out) {
            return Ok(true);
        }
        if !line.ends_with(" --log") {
            return Ok(false);
        }
        match log_behind(text, out) {
            Some(log) => self.is_log(rt, log),
            None => Ok(is_head(text, out)),
        }
    }

    // Whether `replay` takes the whole lines of a log, and counts them.
    fn is_log<'x, R: AllocGlobal + Threads + Sync>(
        &'x self,
        rt: &R,
        log: &'x str,
    ) -> Result<bool, OutOfMemory> {
        let Some((lines, _cut)) = log.rsplit_once('\n') else {
            return Ok(true);
        };
        let files = self.with_log(lines);
        let Some(state) = printed(rt, &files, "desync replay tog v l", &OpenGate) else {
            return Ok(false);
        };
        let count = lines.split('\n').count();
        let fired = format!(in rt.alloc(); "\nfired {count} of ")?;
        Ok(state.as_str().contains(fired.as_str()))
    }
}

/// Whether this is the command line of a run that is stopped.
pub fn is_stopped(line: &str) -> bool {
    line.contains(" --stop ")
}

// What stands behind the trace and the line of its log.
fn log_behind<'o>(trace: &str, out: &'o [u8]) -> Option<&'o str> {
    let out = str::from_utf8(out).ok()?;
    out.strip_prefix(trace)?.strip_prefix("firings\n")
}

// Whether this is a trace and a first part of the line of its log.
fn is_head(trace: &str, out: &[u8]) -> bool {
    match out.strip_prefix(trace.as_bytes()) {
        Some(rest) => b"firings\n".starts_with(rest),
        None => false,
    }
}
