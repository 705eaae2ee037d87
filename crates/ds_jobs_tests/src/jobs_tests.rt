//! Runs by several workers: the same bytes, and logs that can be fired again.
use ds_base::OutOfMemory;
use ds_outside::OpenGate;
use ds_trial::{TOGGLE, Wanted, chain, gives, play, printed, tangle};
use std::test::Fail;
use std::thread::Threads;

// Whether the whole log of a run by so many workers is a log for `replay`.
fn is_fired_again<R: AllocGlobal + Threads + Sync>(
    rt: &R,
    jobs: &str,
) -> Result<bool, OutOfMemory> {
    let line = format!(in rt.alloc(); "desync run n v --log --jobs {jobs}")?;
    let net = String::from_str(rt.alloc(), TOGGLE)?;
    let (net, vec) = (net.as_str(), "1\n");
    let files = [("n", net), ("v", vec)];
    let Some(log) = printed(rt, &files, line.as_str(), &OpenGate) else {
        return Ok(false);
    };
    let wanted = Wanted {
        status: 0,
        text: "q: 1\nfired 8 of 8\n",
    };
    let files = [("n", net), ("v", vec), ("l", log.as_str())];
    gives(rt, &files, "desync replay n v l", wanted)
}

#[test]
fn printed_logs_are_fired_again(rt: HostRuntime) -> Result<(), Fail> {
    for jobs in ["1", "2", "3", "64"] {
        assert!(rt; is_fired_again(&rt, jobs)?, "{jobs}");
    }
    Ok(())
}

// A log of no turns.
const EMPTY: &str = "%v
%$ desync run toggle v --log
%= 0
end 0
firings
";

#[test]
fn no_vectors_give_an_empty_log(rt: HostRuntime) -> Result<(), Fail> {
    play(&rt, EMPTY, 1)
}

// Two netlists, each by one to as many workers as there may be.
const TRACES: &str = "%$ desync run toggle four --jobs 1
%$ desync run toggle four --jobs 2
%$ desync run toggle four --jobs 5
%$ desync run toggle four --jobs 64
%$ desync run toggle four --jobs 064
%= 0 < trace
%v
1
0
1
%$ desync run shift v --jobs 1
%$ desync run shift v --jobs 2
%$ desync run shift v --jobs 5
%$ desync run shift v --jobs 64
%$ desync run shift v --jobs 064
%= 0
0 0 00
1 0 10
2 1 01
end 10
";

#[test]
fn any_number_of_workers_prints_the_trace(rt: HostRuntime) -> Result<(), Fail> {
    play(&rt, TRACES, 10)
}

// No number of workers, among them an empty word.
const OTHERS: &str = "%v
1
%$ desync run toggle v --jobs 0
%$ desync run toggle v --jobs 65
%$ desync run toggle v --jobs\x20
%$ desync run toggle v --jobs +1
%$ desync run toggle v --jobs 1x
%$ desync run toggle v --jobs 000000000000000000001
%= 2
desync: bad command line
";

#[test]
fn other_numbers_of_workers_are_no_command_line(rt: HostRuntime) -> Result<(), Fail> {
    play(&rt, OTHERS, 6)
}

// Whether four workers print the clocked trace of so many registers in a row, all in one cluster.
fn is_run_as_clocked<R: AllocGlobal + Threads + Sync>(
    rt: &R,
    registers: usize,
) -> Result<bool, OutOfMemory> {
    let net = chain(rt.alloc(), registers)?;
    let files = [("n", net.as_str()), ("v", "1\n0\n1\n1\n0\n0\n1\n")];
    let Some(clocked) = printed(rt, &files, "desync clock n v", &OpenGate) else {
        return Ok(false);
    };
    let wanted = Wanted {
        status: 0,
        text: clocked.as_str(),
    };
    gives(rt, &files, "desync run n v --clusters one --jobs 4", wanted)
}

// Clusters whose values stay below two words, just fill them, and need a third.
#[test]
fn wide_clusters_print_the_clocked_trace(rt: HostRuntime) -> Result<(), Fail> {
    for registers in [63, 64, 65, 100] {
        assert!(rt; is_run_as_clocked(&rt, registers)?, "{registers}");
    }
    Ok(())
}

// Seven groups of registers, by their last digits: with them a run has 16 nodes, so few that it has
// as many workers as jobs.
const SEVEN: &str = "*0\n*1\n*2\n*3\n*4\n*5\n*\n";

// Whether four workers print the clocked trace of a tangle, and a log that can be fired again.
fn is_run_and_fired_again<R: AllocGlobal + Threads + Sync>(
    rt: &R,
    seed: u64,
) -> Result<bool, OutOfMemory> {
    let net = tangle(rt.alloc(), seed)?;
    let (net, vec) = (net.as_str(), "1\n0\n");
    let files = [("n", net), ("v", vec), ("f", SEVEN)];
    let line = "desync run n v --groups f --jobs 4 --log";
    let Some(clocked) = printed(rt, &files, "desync clock n v", &OpenGate) else {
        return Ok(false);
    };
    let Some(text) = printed(rt, &files, line, &OpenGate) else {
        return Ok(false);
    };
    let files = [("n", net), ("v", vec), ("f", SEVEN), ("l", text.as_str())];
    let Some(state) = printed(rt, &files, "desync replay n v l --groups f", &OpenGate) else {
        return Ok(false);
    };
    // each of 16 nodes opens and closes in each of 2 turns
    let fired = state.as_str().ends_with("\nfired 64 of 64\n");
    Ok(text.as_str().starts_with(clocked.as_str()) && fired)
}

// The same of so many designs.
fn all_are_run_and_fired_again<R: AllocGlobal + Threads + Sync>(
    rt: &R,
    first: u64,
) -> Result<bool, OutOfMemory> {
    for step in 0..250 {
        if !is_run_and_fired_again(rt, first ^ step)? {
            return Ok(false);
        }
    }
    Ok(true)
}

#[test]
fn four_workers_are_fired_again_on_the_first_designs(rt: HostRuntime) -> Result<(), Fail> {
    assert!(rt; all_are_run_and_fired_again(&rt, 0)?);
    Ok(())
}

#[test]
fn four_workers_are_fired_again_on_the_second_designs(rt: HostRuntime) -> Result<(), Fail> {
    assert!(rt; all_are_run_and_fired_again(&rt, 256)?);
    Ok(())
}

#[test]
fn four_workers_are_fired_again_on_the_third_designs(rt: HostRuntime) -> Result<(), Fail> {
    assert!(rt; all_are_run_and_fired_again(&rt, 512)?);
    Ok(())
}

#[test]
fn four_workers_are_fired_again_on_the_last_designs(rt: HostRuntime) -> Result<(), Fail> {
    assert!(rt; all_are_run_and_fired_again(&rt, 768)?);
    Ok(())
}
