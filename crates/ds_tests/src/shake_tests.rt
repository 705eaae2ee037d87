//! Expansions of controller graphs: texts that are worked by hand, one that is refused, and those
//! of random designs, which are accepted and run.
use crate::cycle_tests::{below, netlist};
use crate::graph_tests::wide;
use ds_base::OutOfMemory;
use ds_outside::OpenGate;
use ds_trial::{Wanted, gives, play, printed};
use rand_core::SeedableRng;
use rand_xoshiro::Xoshiro256PlusPlus;
use std::alloc::{AllocError, Global};
use std::test::Fail;
use std::thread::Threads;

// The expansions of a wire and of a register that feeds itself, their ranks, and runs over the
// second one.
const EXPANSIONS: &str = "%wired
.model w
.outputs IN OUT
.internal r0 a0
.graph
IN+ IN- r0+
IN- IN+
OUT+ OUT-
OUT- OUT+ a0+
r0+ OUT+
r0- a0-
a0+ IN+ r0-
a0- r0+ a0+
.marking { <IN-,IN+> <OUT-,OUT+> <a0+,IN+> <a0-,r0+> <a0-,a0+> }
.end
%$ desync graph wire --shake
%= 0 < wired
%$ desync accept wire wired
%= 0
accepted
IN+ 0
IN- 1
OUT+ 2
OUT- 3
r0+ 1
r0- 5
a0+ 4
a0- 6
%$ desync graph toggle --shake
%$ desync graph toggle --shake --clusters one
%= 0 < toggled
%$ desync accept toggle toggled
%= 0
accepted
IN+ 0
IN- 1
OUT+ 0
OUT- 1
M0+ 2
M0- 3
S0+ 5
S0- 6
r0+ 1
r0- 5
a0+ 4
a0- 6
r1+ 3
r1- 8
a1+ 7
a1- 9
r2+ 6
r2- 3
a2+ 2
a2- 4
r3+ 7
r3- 5
a3+ 4
a3- 6
%$ desync run toggle four --graph toggled
%$ desync run toggle four --graph toggled --jobs 4
%= 0 < trace
";

#[test]
fn expansions_are_written_accepted_and_run(rt: HostRuntime) -> Result<(), Fail> {
    play(&rt, EXPANSIONS, 7)
}

// No command lines, and a netlist that is refused before it is expanded.
const OTHERS: &str = "%$ desync graph toggle --shake --shake
%$ desync graph toggle --shake=1
%$ desync accept toggle g --shake
%= 2
desync: bad command line
%n
.model n
.bad
%$ desync graph n --shake
%= 1
n:2: unsupported command .bad
%$ desync graph m --shake
%= 3
desync: cannot read m
";

#[test]
fn the_flag_is_for_graphs_that_are_there(rt: HostRuntime) -> Result<(), Fail> {
    play(&rt, OTHERS, 5)
}

// 181 such registers have 364 nodes and 32,942 data edges.
#[test]
fn signals_are_counted_to_their_limit(rt: HostRuntime) -> Result<(), Fail> {
    let net = wide(rt.alloc(), 181)?;
    let refused = Wanted {
        status: 1,
        text: "c: too many signals (limit 65536)\n",
    };
    let files = [("c", net.as_str())];
    assert!(rt; gives(&rt, &files, "desync graph c --shake", refused)?);
    Ok(())
}

// Vectors of one column, as many as these.
fn vectors(
    alloc: Global,
    draws: &mut Xoshiro256PlusPlus,
    count: usize,
) -> Result<String, AllocError> {
    let mut text = String::new(alloc);
    for _ in 0..count {
        text.push_str(if below(draws, 2) == 0 { "0\n" } else { "1\n" })?;
    }
    Ok(text)
}

// Whether the expansion of a netlist's graph, its registers in the clusters of a mode, is accepted,
// and a run by it prints the clocked trace.
fn is_run_by_its_expansion<R: AllocGlobal + Threads + Sync>(
    rt: &R,
    net: String,
    vec: String,
    mode: &str,
) -> Result<bool, OutOfMemory> {
    let files = [("n", net.as_str()), ("v", vec.as_str())];
    let line = format!(in rt.alloc(); "desync graph n --shake --clusters {mode}")?;
    let Some(graph) = printed(rt, &files, line.as_str(), &OpenGate) else {
        return Ok(false);
    };
    let Some(clocked) = printed(rt, &files, "desync clock n v", &OpenGate) else {
        return Ok(false);
    };
    let files = [
        ("n", net.as_str()),
        ("v", vec.as_str()),
        ("g", graph.as_str()),
    ];
    let line = format!(in rt.alloc(); "desync accept n g --clusters {mode}")?;
    let ranks = printed(rt, &files, line.as_str(), &OpenGate);
    let line = format!(in rt.alloc(); "desync run n v --graph g --jobs 4 --clusters {mode}")?;
    let wanted = Wanted {
        status: 0,
        text: clocked.as_str(),
    };
    Ok(ranks.is_some() && gives(rt, &files, line.as_str(), wanted)?)
}

// Twenty designs of one to ten registers, their clusters by turns each register and all.
#[test]
fn expansions_of_random_designs_are_accepted_and_run(rt: HostRuntime) -> Result<(), Fail> {
    let alloc = rt.alloc();
    let mut draws = Xoshiro256PlusPlus::seed_from_u64(34);
    for round in 0..20_u64 {
        let registers = below(&mut draws, 10).saturating_add(1);
        let net = netlist(alloc, &mut draws, registers)?;
        let vec = vectors(alloc, &mut draws, 25)?;
        let mode = if round & 1 == 0 { "each" } else { "one" };
        assert!(rt; is_run_by_its_expansion(&rt, net, vec, mode)?, "{round}");
    }
    Ok(())
}
