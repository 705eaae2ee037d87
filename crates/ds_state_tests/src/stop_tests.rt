//! Runs that are stopped: what they print, and what refuses them.
use ds_base::OutOfMemory;
use ds_trial::{TOGGLE, Wanted, gives, play};
use std::alloc::{AllocError, Global};
use std::test::Fail;
use std::thread::Threads;

// Runs that store nothing, all, or by the order in which one worker fires; over no vectors, an
// unknown one, all registers in one cluster by a graph, no registers, and one in a copy.
const ROWS: &str = "%$ desync run toggle four --stop 0
%$ desync run toggle four --stop=0 --jobs 64
%= 0
q: -
fired 0 of 32
%$ desync run toggle four --stop 0 --log
%$ desync run toggle four --log --jobs 4 --stop 00
%= 0
q: -
fired 0 of 32
firings
%$ desync run toggle four --stop 32 --jobs 4
%$ desync run toggle four --stop 18446744073709551615
%$ desync run toggle four --stop 18446744073709551615 --jobs 64
%$ desync run toggle four --stop 0032
%$ desync run toggle four --stop 33 --slack 2 --jobs 2
%= 0
q: 1001
fired 32 of 32
%$ desync run toggle four --stop=5
%= 0
q: -
fired 5 of 32
%$ desync run toggle four --stop=5 --log
%= 0
q: -
fired 5 of 32
firings
IN+ 1
IN- 1
OUT+ 1
OUT- 1
M0+ 1
%$ desync run toggle four --stop 18
%= 0
q: 10
fired 18 of 32
%v
%$ desync run toggle v --stop 3
%$ desync run toggle v --stop 0 --jobs 2
%= 0
q: -
fired 0 of 0
%v
x
%$ desync run toggle v --stop 8 --jobs 3
%= 0
q: x
fired 8 of 8
%v
1
0
1
%g < graph
.model toggle
=>
.model shift
%$ desync graph shift --clusters one
%= 0 < g
%$ desync run shift v --stop 24 --clusters one --graph g
%$ desync run shift v --stop 24 --clusters one --jobs 4
%= 0
q0: 101
q1: 010
fired 24 of 24
%$ desync run shift v --stop 20
%= 0
q0: 1
q1: 01
fired 20 of 36
%v
1
%$ desync run wire v --stop 4
%$ desync run wire v --stop 4 --clusters one --jobs 2
%= 0
fired 4 of 4
%$ desync run wire v --stop 0 --log
%= 0
fired 0 of 4
firings
%v
-
-
%$ desync run copy v --stop 16 --jobs 2
%= 0
1/q: 10
fired 16 of 16
";

#[test]
fn stopped_runs_print_what_is_stored(rt: HostRuntime) -> Result<(), Fail> {
    play(&rt, ROWS, 23)
}

// Vectors with a fault behind the stop, faults before them, files that are not there, and numbers
// that are no stop, among them an empty word.
const REFUSED: &str = "%v
1
0
10
%$ desync run toggle v --stop 0
%$ desync run toggle v --stop 24 --jobs 4 --log
%= 1
v:3: bad width
%v
1
-
%$ desync run toggle v --stop 1
%= 1
v:2: bad bit
%n
.model m
.outputs y
.end
%$ desync run n v --stop 0
%$ desync run n none --stop 0
%= 1
n: undriven net y
%g
.outputs IN OUT M0
.graph
.end
%$ desync run toggle v --stop 0 --graph g
%$ desync run toggle none --stop 0 --graph g
%= 1
g: missing event S0+
%$ desync run toggle none --stop 0
%$ desync run none v --stop 0
%= 3
desync: cannot read none
%$ desync run toggle v --stop x
%$ desync run toggle v --stop
%$ desync run toggle v --stop\x20
%$ desync run toggle v --stop -1
%$ desync run toggle v --stop +1
%$ desync run toggle v --stop 18446744073709551616
%$ desync run toggle v --stop 000000000000000000001
%$ desync run toggle v --stop 1 --stop 2
%$ desync run toggle v --stop 0 --jobs 65
%$ desync run toggle --stop 1
%$ desync clock toggle v --stop 1
%$ desync replay toggle v v --stop 1
%= 2
desync: bad command line
";

#[test]
fn what_a_stopped_run_reads_is_refused_first(rt: HostRuntime) -> Result<(), Fail> {
    play(&rt, REFUSED, 21)
}

// A text, twice as long so many times.
fn doubled(alloc: Global, text: &str, times: u32) -> Result<String, AllocError> {
    let mut all = String::from_str(alloc, text)?;
    for _ in 0..times {
        let half = String::from_str(alloc, all.as_str())?;
        all.push_str(half.as_str())?;
    }
    Ok(all)
}

// Whether a run of the toggle that stops behind its first firing answers this of such vectors.
fn answers<R: AllocGlobal + Threads + Sync>(
    rt: &R,
    vectors: &str,
    wanted: Wanted<'_>,
) -> Result<bool, OutOfMemory> {
    let files = [("n", TOGGLE), ("v", vectors)];
    gives(rt, &files, "desync run n v --stop 1", wanted)
}

// What is printed, or reported where the vectors have a fault.
fn given(status: u8, text: &str) -> Wanted<'_> {
    Wanted { status, text }
}

#[test]
fn vectors_of_a_stopped_run_are_read_to_their_limits(rt: HostRuntime) -> Result<(), Fail> {
    let mut vectors = doubled(rt.alloc(), "1\n", 16)?;
    let wanted = given(0, "q: -\nfired 1 of 524288\n");
    assert!(rt; answers(&rt, vectors.as_str(), wanted)?);
    vectors.push_str("1\n")?;
    let wanted = given(1, "v:65537: too many vectors (limit 65536)\n");
    assert!(rt; answers(&rt, vectors.as_str(), wanted)?);
    Ok(())
}

#[test]
fn a_text_of_vectors_is_read_to_its_limit(rt: HostRuntime) -> Result<(), Fail> {
    let mut vectors = doubled(rt.alloc(), "\n", 24)?;
    assert!(rt; answers(&rt, vectors.as_str(), given(0, "q: -\nfired 0 of 0\n"))?);
    vectors.push_str("\n")?;
    let wanted = given(1, "v: too long (limit 16777216)\n");
    assert!(rt; answers(&rt, vectors.as_str(), wanted)?);
    Ok(())
}
