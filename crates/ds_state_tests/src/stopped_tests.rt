//! Stopped runs beside the logs that they print: how many fire, and that `replay` shows the same.
use ds_base::OutOfMemory;
use ds_outside::OpenGate;
use ds_trial::{TOGGLE, Wanted, gives, printed, tangle};
use std::alloc::{AllocError, Global};
use std::test::Fail;
use std::thread::Threads;

// Four vectors.
const VECTORS: &str = "1\n1\n0\n1\n";

// After how many firings each worker stops, and how many workers there are.
#[derive(Clone, Copy)]
struct StopCase {
    firings: usize,
    jobs: usize,
}

impl StopCase {
    // The command line of such a run.
    fn line(&self, alloc: Global) -> Result<String, AllocError> {
        let (firings, jobs) = (self.firings, self.jobs);
        format!(in alloc; "desync run n v --stop {firings} --jobs {jobs} --log")
    }

    // Whether so many may have fired, of all that there are.
    fn allows(&self, fired: usize, all: usize) -> bool {
        let least = if self.firings < all {
            self.firings
        } else {
            all
        };
        least <= fired && fired <= all && fired <= self.firings.saturating_mul(self.jobs)
    }
}

// Whether `replay` of what a run has printed prints the lines before its log again.
fn is_replayed<'x, R: AllocGlobal + Threads + Sync>(
    rt: &R,
    net: &'x str,
    text: &'x str,
    head: &str,
) -> Result<bool, OutOfMemory> {
    let files = [("n", net), ("v", VECTORS), ("l", text)];
    let wanted = Wanted {
        status: 0,
        text: head,
    };
    gives(rt, &files, "desync replay n v l", wanted)
}

// Whether a run that is stopped so may print this, and `replay` of it prints the lines before the
// log again.
fn may_be_printed<'x, R: AllocGlobal + Threads + Sync>(
    rt: &R,
    net: &'x str,
    text: &'x str,
    stop: StopCase,
    all: usize,
) -> Result<bool, OutOfMemory> {
    let Some((head, log)) = text.split_once("firings\n") else {
        return Ok(false);
    };
    let fired = log.lines().count();
    let last = format!(in rt.alloc(); "fired {fired} of {all}\n")?;
    let said = head.ends_with(last.as_str()) && stop.allows(fired, all);
    Ok(said && is_replayed(rt, net, text, head)?)
}

// What a run of a netlist prints that is stopped so, where it may print that; `all` is how many
// firings there are.
fn stopped<R: AllocGlobal + Threads + Sync>(
    rt: &R,
    net: &str,
    stop: StopCase,
    all: usize,
) -> Result<Option<String>, OutOfMemory> {
    let files = [("n", net), ("v", VECTORS)];
    let line = stop.line(rt.alloc())?;
    let Some(text) = printed(rt, &files, line.as_str(), &OpenGate) else {
        return Ok(None);
    };
    if may_be_printed(rt, net, text.as_str(), stop, all)? {
        Ok(Some(text))
    } else {
        Ok(None)
    }
}

// Whether the toggle shows as many of its values as its slave has closed by the log.
fn stores_by_its_log(text: &str) -> bool {
    let Some((head, log)) = text.split_once("firings\n") else {
        return false;
    };
    let mut closed = 0usize;
    for line in log.lines() {
        if line.starts_with("S0- ") {
            closed = closed.saturating_add(1);
        }
    }
    let first = match closed {
        0 => "q: -\n",
        1 => "q: 1\n",
        2 => "q: 10\n",
        3 => "q: 100\n",
        _ => "q: 1001\n",
    };
    head.starts_with(first)
}

// Whether a run of the toggle that is stopped so prints what it may, and what is stored by its log.
fn is_stopped<R: AllocGlobal + Threads + Sync>(
    rt: &R,
    stop: StopCase,
) -> Result<bool, OutOfMemory> {
    let text = stopped(rt, TOGGLE, stop, 32)?;
    Ok(text.is_some_and(|text| stores_by_its_log(text.as_str())))
}

#[test]
fn one_worker_stops_at_each_number(rt: HostRuntime) -> Result<(), Fail> {
    for firings in 0..34 {
        let stop = StopCase { firings, jobs: 1 };
        assert!(rt; is_stopped(&rt, stop)?, "{firings}");
    }
    Ok(())
}

#[test]
fn four_workers_stop_within_four_times_the_number(rt: HostRuntime) -> Result<(), Fail> {
    for firings in 0..34 {
        let stop = StopCase { firings, jobs: 4 };
        assert!(rt; is_stopped(&rt, stop)?, "{firings}");
    }
    Ok(())
}

// Whether one worker of the toggle prints without a log the lines that stand before it.
fn is_same_without_a_log<R: AllocGlobal + Threads + Sync>(
    rt: &R,
    firings: usize,
) -> Result<bool, OutOfMemory> {
    let Some(text) = stopped(rt, TOGGLE, StopCase { firings, jobs: 1 }, 32)? else {
        return Ok(false);
    };
    let files = [("n", TOGGLE), ("v", VECTORS)];
    let line = format!(in rt.alloc(); "desync run n v --stop {firings}")?;
    let Some((head, _)) = text.as_str().split_once("firings\n") else {
        return Ok(false);
    };
    let wanted = Wanted {
        status: 0,
        text: head,
    };
    gives(rt, &files, line.as_str(), wanted)
}

#[test]
fn a_log_changes_no_line_before_it(rt: HostRuntime) -> Result<(), Fail> {
    for firings in 0..34 {
        assert!(rt; is_same_without_a_log(&rt, firings)?, "{firings}");
    }
    Ok(())
}

// Each of 202 nodes opens and closes in each of 4 turns.
#[test]
fn four_workers_stop_amid_a_hundred_registers(rt: HostRuntime) -> Result<(), Fail> {
    for seed in 0..60u64 {
        let net = tangle(rt.alloc(), seed)?;
        let firings = (seed as usize).saturating_mul(8);
        let text = stopped(&rt, net.as_str(), StopCase { firings, jobs: 4 }, 1_616)?;
        assert!(rt; text.is_some(), "{seed}");
    }
    Ok(())
}
