//! Producers that run ahead: the trace is the same with every slack, which logs and graphs are
//! taken, and what is no slack.
use ds_base::OutOfMemory;
use ds_outside::OpenGate;
use ds_trial::{chain, play, printed};
use std::test::Fail;
use std::thread::Threads;

// Seven vectors.
const VECTORS: &str = "1\n0\n1\n1\n0\n0\n1\n";

// Seven groups of registers, by their last digits: with them a run has 16 nodes, so few that it has
// as many workers as jobs.
const SEVEN: &str = "*0\n*1\n*2\n*3\n*4\n*5\n*\n";

// Whether a hundred registers, run with such options, print the clocked trace and a log that is
// fired again to its end with the same slack.
fn is_run_and_fired_again<R: AllocGlobal + Threads + Sync>(
    rt: &R,
    net: &str,
    slack: &str,
    jobs: &str,
) -> Result<bool, OutOfMemory> {
    let files = [("n", net), ("v", VECTORS), ("f", SEVEN)];
    let line = format!(in rt.alloc();
        "desync run n v --groups f --log --jobs {jobs} --slack {slack}"
    )?;
    let Some(clocked) = printed(rt, &files, "desync clock n v", &OpenGate) else {
        return Ok(false);
    };
    let Some(text) = printed(rt, &files, line.as_str(), &OpenGate) else {
        return Ok(false);
    };
    let same = text.as_str().starts_with(clocked.as_str());
    Ok(same && is_fired_again(rt, net, text.as_str(), slack)?)
}

// Whether a printed log of a hundred registers is fired again to its end.
fn is_fired_again<'x, R: AllocGlobal + Threads + Sync>(
    rt: &R,
    net: &'x str,
    log: &'x str,
    slack: &str,
) -> Result<bool, OutOfMemory> {
    let files = [("n", net), ("v", VECTORS), ("f", SEVEN), ("l", log)];
    let line = format!(in rt.alloc(); "desync replay n v l --groups f --slack {slack}")?;
    let state = printed(rt, &files, line.as_str(), &OpenGate);
    // Each of 16 nodes opens and closes in each of 7 turns
    Ok(state.is_some_and(|state| state.as_str().ends_with("\nfired 224 of 224\n")))
}

#[test]
fn a_hundred_registers_print_the_trace_with_any_slack(rt: HostRuntime) -> Result<(), Fail> {
    let net = chain(rt.alloc(), 100)?;
    for slack in "0 1 2 3 15".split(' ') {
        for jobs in "1 2 8".split(' ') {
            let is = is_run_and_fired_again(&rt, net.as_str(), slack, jobs)?;
            assert!(rt; is, "{slack} {jobs}");
        }
    }
    Ok(())
}

// Logs and a run of two registers in a row. In the first log the first master reads the first
// vector while the vectors hold the second.
const LOGS: &str = "%v
1
0
%l
IN+ 1
IN- 1
IN+ 2
M0+ 1
M0- 1
S0+ 1
S0- 1
%$ desync replay shift v l --slack 1
%$ desync replay shift v l --slack=15
%$ desync replay --slack 00000000000000000001 shift v l
%= 0
q0: 1
q1: -
fired 7 of 24
%$ desync replay shift v l
%$ desync replay shift v l --slack 0
%= 1
l:3: not enabled: M0- to IN+
%v
1
0
1
%ahead
IN+ 1
IN- 1
IN+ 2
IN- 2
IN+ 3
%$ desync replay shift v ahead --slack 1
%= 1
ahead:5: not enabled: M0- to IN+
%$ desync run shift v --slack 3 --jobs 4
%= 0
0 0 00
1 0 10
2 1 01
end 10
%l < ahead
M0+ 1
M0- 1
M0+ 2
%$ desync replay shift v l --slack 2
%= 0
q0: -
q1: -
fired 8 of 36
";

#[test]
fn a_log_may_run_ahead_by_the_slack(rt: HostRuntime) -> Result<(), Fail> {
    play(&rt, LOGS, 8)
}

// Graphs of the toggle: its own, one without the order from M0- to IN+, and those with so many
// tokens of it.
const GRAPHS: &str = "%$ desync run toggle four --graph graph
%$ desync run toggle four --graph graph --slack 2
%= 0 < trace
%g < graph
M0- IN+ M0+ S0+
S0+ OUT+ M0+ S0-
S0- M0+ S0+
.marking { <IN-,IN+> <OUT-,OUT+> <M0-,IN+> <M0-,M0+> <S0+,OUT+> <S0+,M0+> <S0-,M0+> <S0-,S0+> }
=>
M0- M0+ S0+
S0+ OUT+ M0+ S0-
S0- M0+ S0+
.marking { <IN-,IN+> <OUT-,OUT+> <M0-,M0+> <S0+,OUT+> <S0+,M0+> <S0-,M0+> <S0-,S0+> }
%$ desync run toggle four --graph g --slack 2
%$ desync accept toggle g --slack 2
%= 1
g: missing order M0- to IN+ with 3 tokens (no walk)
%$ desync accept toggle g
%= 1
g: missing order M0- to IN+ with 1 tokens (no walk)
%g < graph
<M0-,IN+> <M0-,M0+> <S0+,OUT+> <S0+,M0+> <S0-,M0+> <S0-,S0+> }
=>
<M0-,IN+>=3 <M0-,M0+> <S0+,OUT+> <S0+,M0+> <S0-,M0+> <S0-,S0+> }
%$ desync run toggle four --graph g --slack 2
%= 0 < trace
%$ desync run toggle four --graph g --slack 1
%$ desync accept toggle g --slack 1
%= 1
g: missing order M0- to IN+ with 2 tokens (least walk 3)
%$ desync accept toggle g --slack 2
%= 0 < ranks
%g < graph
<M0-,IN+> <M0-,M0+> <S0+,OUT+> <S0+,M0+> <S0-,M0+> <S0-,S0+> }
=>
<M0-,IN+>=4 <M0-,M0+> <S0+,OUT+> <S0+,M0+> <S0-,M0+> <S0-,S0+> }
%$ desync run toggle four --graph g --slack 2
%= 1
g: missing order M0- to IN+ with 3 tokens (least walk 4)
";

#[test]
fn graphs_are_accepted_against_the_widened_orders(rt: HostRuntime) -> Result<(), Fail> {
    play(&rt, GRAPHS, 10)
}

// No slack, or none that the command takes.
const OTHERS: &str = "%v
1
%l
%$ desync run toggle v --slack 16
%$ desync run toggle v --slack -1
%$ desync run toggle v --slack +1
%$ desync run toggle v --slack=
%$ desync run toggle v --slack x
%$ desync run toggle v --slack
%$ desync run toggle v --slack 1 --slack 1
%$ desync run toggle v --slack 000000000000000000001
%$ desync replay toggle v l --slack 16
%$ desync replay toggle v l --slack 1 --transparent
%$ desync clock toggle v --slack 1
%$ desync check toggle --slack 1
%$ desync graph toggle --slack 16
%$ desync graph toggle --slack 1 --shake
%$ desync accept toggle l --slack 16
%$ desync period toggle l --slack 16
%$ desync demo 0 2 3 --slack 1
%= 2
desync: bad command line
";

#[test]
fn other_slacks_are_no_command_line(rt: HostRuntime) -> Result<(), Fail> {
    play(&rt, OTHERS, 17)
}
