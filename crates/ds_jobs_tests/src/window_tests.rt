//! Runs and clocked traces over more vectors than a window has, up to their limit and to a fault.
use ds_base::OutOfMemory;
use ds_outside::OpenGate;
use ds_trial::{TOGGLE, chain, is_refused, printed};
use std::alloc::{AllocError, Global};
use std::test::Fail;
use std::thread::Threads;

// As many lines `1`.
fn ones(alloc: Global, count: usize) -> Result<String, AllocError> {
    let mut text = String::new(alloc);
    for _ in 0..count {
        text.push_str("1\n")?;
    }
    Ok(text)
}

// Whether `run` and `clock` print the same trace of the toggle on these vectors, with this end.
fn is_traced<R: AllocGlobal + Threads + Sync>(
    rt: &R,
    vectors: String,
    end: &[u8],
) -> Result<bool, OutOfMemory> {
    let files = [("n", TOGGLE), ("v", vectors.as_str())];
    let Some(clocked) = printed(rt, &files, "desync clock n v", &OpenGate) else {
        return Ok(false);
    };
    let Some(run) = printed(rt, &files, "desync run n v --jobs 2", &OpenGate) else {
        return Ok(false);
    };
    let trace = run.as_str().as_bytes();
    Ok(trace == clocked.as_str().as_bytes() && trace.ends_with(end))
}

#[test]
fn windows_are_one_trace(rt: HostRuntime) -> Result<(), Fail> {
    let alloc = rt.alloc();
    assert!(rt; is_traced(&rt, ones(alloc, 4_095)?, b"\n4094 0 0\nend 1\n")?);
    assert!(rt; is_traced(&rt, ones(alloc, 4_096)?, b"\n4095 1 1\nend 0\n")?);
    assert!(rt; is_traced(&rt, ones(alloc, 4_097)?, b"\n4096 0 0\nend 1\n")?);
    assert!(rt; is_traced(&rt, ones(alloc, 8_193)?, b"\n8192 0 0\nend 1\n")?);
    Ok(())
}

// As many vectors of one value, each third of them 0.
fn thirds(alloc: Global, count: usize) -> Result<String, AllocError> {
    let mut text = String::new(alloc);
    for turn in 0..count {
        text.push_str(if turn % 3 == 0 { "0\n" } else { "1\n" })?;
    }
    Ok(text)
}

// Whether several workers print the clocked trace of 64 registers in a row, of which they make the
// lines of some 700 turns at a time.
fn is_shared<R: AllocGlobal + Threads + Sync>(
    rt: &R,
    turns: usize,
    line: &str,
) -> Result<bool, OutOfMemory> {
    let (net, vectors) = (chain(rt.alloc(), 64)?, thirds(rt.alloc(), turns)?);
    let files = [("n", net.as_str()), ("v", vectors.as_str())];
    let Some(clocked) = printed(rt, &files, "desync clock n v", &OpenGate) else {
        return Ok(false);
    };
    let Some(run) = printed(rt, &files, line, &OpenGate) else {
        return Ok(false);
    };
    Ok(run.as_str() == clocked.as_str())
}

#[test]
fn several_workers_make_the_lines_of_a_window(rt: HostRuntime) -> Result<(), Fail> {
    for turns in [1_457, 2_184, 4_097] {
        for line in [
            "desync run n v --clusters one --jobs 2",
            "desync run n v --clusters one --jobs 3",
            "desync run n v --clusters one --jobs 64",
        ] {
            assert!(rt; is_shared(&rt, turns, line)?, "{line}");
        }
    }
    Ok(())
}

// Whether the log that three workers print on these vectors is fired again, to this end.
fn is_fired_again<R: AllocGlobal + Threads + Sync>(
    rt: &R,
    vectors: String,
    end: &[u8],
) -> Result<bool, OutOfMemory> {
    let files = [("n", TOGGLE), ("v", vectors.as_str())];
    let Some(log) = printed(rt, &files, "desync run n v --log --jobs 3", &OpenGate) else {
        return Ok(false);
    };
    let files = [("n", TOGGLE), ("v", vectors.as_str()), ("l", log.as_str())];
    let Some(text) = printed(rt, &files, "desync replay n v l", &OpenGate) else {
        return Ok(false);
    };
    Ok(text.as_str().as_bytes().ends_with(end))
}

#[test]
fn the_log_of_windows_is_fired_again(rt: HostRuntime) -> Result<(), Fail> {
    let vectors = ones(rt.alloc(), 4_097)?;
    assert!(rt; is_fired_again(&rt, vectors, b"\nfired 32776 of 32776\n")?);
    Ok(())
}

#[test]
fn many_vectors_are_run(rt: HostRuntime) -> Result<(), Fail> {
    let vectors = ones(rt.alloc(), 4_097)?;
    let files = [("n", TOGGLE), ("v", vectors.as_str())];
    let text = printed(&rt, &files, "desync run n v", &OpenGate);
    assert!(rt; text.is_some_and(|text| text.as_str().ends_with("\n4096 0 0\nend 1\n")));
    Ok(())
}

// A log keeps all firings, so with one there are fewer vectors; the windows before are written.
#[test]
fn too_many_vectors_are_refused(rt: HostRuntime) -> Result<(), Fail> {
    let vectors = ones(rt.alloc(), 65_537)?;
    let files = [("n", TOGGLE), ("v", vectors.as_str())];
    let fault = "v:65537: too many vectors (limit 65536)\n";
    let line = "desync run n v --log";
    assert!(rt; is_refused(&rt, &files, line, "\n65535 1 1\n", fault)?);
    Ok(())
}

// Five thousand lines, of which one is no vector.
fn with_fault(alloc: Global, faulty: usize) -> Result<String, AllocError> {
    let mut vectors = String::new(alloc);
    for line in 1..5_001 {
        vectors.push_str(if line == faulty { "z\n" } else { "1\n" })?;
    }
    Ok(vectors)
}

#[test]
fn windows_stop_at_a_fault(rt: HostRuntime) -> Result<(), Fail> {
    let vectors = with_fault(rt.alloc(), 4_098)?;
    let files = [("n", TOGGLE), ("v", vectors.as_str())];
    for line in ["desync run n v", "desync clock n v"] {
        let is = is_refused(&rt, &files, line, "\n4095 1 1\n", "v:4098: bad bit\n")?;
        assert!(rt; is, "{line}");
    }
    Ok(())
}
