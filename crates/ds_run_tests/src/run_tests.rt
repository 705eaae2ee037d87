//! Runs over clusters beside clocked ones, and a failed write of a line.
use ds_app::desync_main;
use ds_base::OutOfMemory;
use ds_outside::{MemorySink, OpenGate};
use ds_trial::{RING, Wanted, chain, files, gives, play};
use std::alloc::{AllocError, Global};
use std::test::Fail;
use std::thread::Threads;

// A table that reads the input and a register, behind other tables; and a table that feeds two
// clusters, where registers are put together by bus.
const TRACES: &str = "%ways
desync clock n v
desync run n v --clusters each --jobs 1
desync run n v --clusters each --jobs 4
desync run n v --clusters one --jobs 1
desync run n v --clusters one --jobs 4
desync run n v --clusters bus --jobs 1
desync run n v --clusters bus --jobs 4
%n
.model back
.inputs a
.outputs y
.names a q u
11 1
.names u d
0 1
.names d r y
11 1
.latch d q 0
.latch u r 1
.end
%v
1
0
1
1
%$ < ways
%= 0
0 1 01
1 0 10
2 0 10
3 1 01
end 10
%n
.model two
.inputs a
.outputs q[1] r
.names a r t
10 1
01 1
.latch t q[0] 0
.latch q[0] q[1] 1
.latch t r 0
.end
%v
1
1
0
%$ < ways
%= 0
0 10 010
1 01 101
2 10 010
end 000
";

#[test]
fn clusters_print_the_clocked_trace(rt: HostRuntime) -> Result<(), Fail> {
    play(&rt, TRACES, 14)
}

// So many zeros.
fn push_zeros(text: &mut String, count: usize) -> Result<(), AllocError> {
    for _ in 0..count {
        text.push_str("0")?;
    }
    Ok(())
}

// A one that goes along the chain: before turn k it is in register k - 1.
fn passed_on(alloc: Global) -> Result<String, AllocError> {
    let mut text = String::from_str(alloc, "0 0 ")?;
    push_zeros(&mut text, 100)?;
    for i in 0..100 {
        let output = if i == 99 { 1 } else { 0 };
        text.push_str(format!(in alloc; "\n{} {output} ", i + 1)?.as_str())?;
        push_zeros(&mut text, i)?;
        text.push_str("1")?;
        push_zeros(&mut text, 99 - i)?;
    }
    text.push_str("\nend ")?;
    push_zeros(&mut text, 100)?;
    text.push_str("\n")?;
    Ok(text)
}

// Whether `clock`, and `run` over the clusters of each mode, print this text.
fn all_print<R: AllocGlobal + Threads + Sync>(
    rt: &R,
    files: &[(&str, &str)],
    out: &str,
) -> Result<bool, OutOfMemory> {
    let wanted = Wanted {
        status: 0,
        text: out,
    };
    let mut all = gives(rt, files, "desync clock n v", wanted)?;
    for mode in ["each", "one", "bus"] {
        for jobs in ["1", "4"] {
            let line = format!(in rt.alloc(); "desync run n v --clusters {mode} --jobs {jobs}")?;
            all = all && gives(rt, files, line.as_str(), wanted)?;
        }
    }
    Ok(all)
}

#[test]
fn a_one_goes_along_a_hundred_registers(rt: HostRuntime) -> Result<(), Fail> {
    let alloc = rt.alloc();
    let net = chain(alloc, 100)?;
    let mut vec = String::from_str(alloc, "1\n")?;
    for _ in 0..100 {
        vec.push_str("0\n")?;
    }
    let trace = passed_on(alloc)?;
    let files = [("n", net.as_str()), ("v", vec.as_str())];
    assert!(rt; all_print(&rt, &files, trace.as_str())?);
    Ok(())
}

// The status of these words, and whether a first part of a line is left, where the error output
// takes six bytes a call and its second call fails.
fn answer<R: AllocGlobal + Threads + Sync>(
    rt: &R,
    words: &[&str],
    line: &[u8],
) -> Result<(u8, bool), Fail> {
    let alloc = rt.alloc();
    let mut files = files(alloc, &[("n", RING), ("v", "")])?;
    let mut out = MemorySink::with_room(alloc, 100)?;
    let mut err = MemorySink::with_room(alloc, 100)?;
    err.at_most(6);
    let fails = err.fail_at(1).is_ok();
    let status = desync_main(rt, words, &mut files, &mut out, &mut err, &OpenGate);
    let part = !err.bytes().is_empty() && line.starts_with(err.bytes()) && err.bytes().len() < 7;
    Ok((status, fails && part))
}

#[test]
fn a_failed_write_of_a_line_leaves_the_status(rt: HostRuntime) -> Result<(), Fail> {
    let usage = answer(&rt, &["desync", "run", "n"], b"desync: bad command line\n")?;
    assert_eq!(rt; usage, (2, true));
    let cycle = b"n: combinational cycle: y z\n";
    let fault = answer(&rt, &["desync", "run", "n", "v"], cycle)?;
    assert_eq!(rt; fault, (1, true));
    Ok(())
}
