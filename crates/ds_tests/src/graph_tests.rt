//! Controller graphs of netlists in texts, and runs over clusters.
use ds_base::OutOfMemory;
use ds_trial::{Wanted, gives, play_behind};
use std::alloc::{AllocError, Global};
use std::test::Fail;
use std::thread::Threads;

/// Two registers of a bus, and one between them; their graph, with a cluster for the bus.
pub const BUS: &str = "%b
.model b
.inputs a
.outputs r
.latch a q[0] re clk 0
.latch q[0] r re clk 0
.latch r q[1] re clk 0
.end
%g
.model b
.outputs IN OUT M0 S0 M1 S1
.graph
IN+ IN- M0+
IN- IN+
OUT+ OUT-
OUT- OUT+ S1+
M0+ M0- S0+
M0- IN+ M0+ S1+
S0+ S0- M1+
S0- M0+ S0+
M1+ M1- S1+
M1- S0+ M1+
S1+ OUT+ M0+ S1-
S1- M1+ S1+
.marking { <IN-,IN+> <OUT-,OUT+> <M0-,IN+> <M0-,M0+> <S0+,M1+> <S0-,M0+> <S0-,S0+> <M1-,M1+> \
    <S1+,OUT+> <S1+,M0+> <S1-,M1+> <S1-,S1+> }
.end
";

// Graphs of one cluster that reads vectors, outputs and itself; of two registers in a row, in two
// clusters and in one; and of two clusters that feed each other.
const GRAPHS: &str = "%$ desync graph toggle --clusters each
%= 0 < graph
%$ desync graph toggle --slack 2
%= 0 < graph
<OUT-,OUT+> <M0-,IN+> <M0-,M0+> <S0+,OUT+> <S0+,M0+> <S0-,M0+> <S0-,S0+> }
=>
<OUT-,OUT+> <OUT-,S0+>=2 <M0-,IN+>=3 <M0-,M0+> <M0-,S0+>=2 <S0+,OUT+> <S0+,M0+> <S0-,M0+>=3 \
    <S0-,S0+> }
%$ desync graph shift --clusters each
%= 0
.model shift
.outputs IN OUT M0 S0 M1 S1
.graph
IN+ IN- M0+
IN- IN+
OUT+ OUT-
OUT- OUT+ S1+
M0+ M0- S0+
M0- IN+ M0+
S0+ S0- M1+
S0- M0+ S0+
M1+ M1- S1+
M1- S0+ M1+
S1+ OUT+ S1-
S1- M1+ S1+
.marking { <IN-,IN+> <OUT-,OUT+> <M0-,IN+> <M0-,M0+> <S0+,M1+> <S0-,M0+> <S0-,S0+> <M1-,M1+> \
    <S1+,OUT+> <S1-,M1+> <S1-,S1+> }
.end
%$ desync graph shift --clusters one
%= 0 < graph
.model toggle
=>
.model shift
%$ desync graph b --clusters bus
%= 0 < g
";

#[test]
fn graphs_are_written(rt: HostRuntime) -> Result<(), Fail> {
    play_behind(&rt, BUS, GRAPHS, 5)
}

/// So many registers, all of which take one table over all of them.
pub fn wide(alloc: Global, count: usize) -> Result<String, AllocError> {
    let mut text = String::from_str(alloc, ".model w\n.names")?;
    for i in 0..count {
        text.push_str(format!(in alloc; " q{i}")?.as_str())?;
    }
    text.push_str(" d\n")?;
    for _ in 0..count {
        text.push_str("-")?;
    }
    text.push_str(" 1\n")?;
    for i in 0..count {
        text.push_str(format!(in alloc; ".latch d q{i} 0\n")?.as_str())?;
    }
    Ok(text)
}

// The last line of a run of no turns, with so many registers.
fn end(alloc: Global, count: usize) -> Result<String, AllocError> {
    let mut text = String::from_str(alloc, "end ")?;
    for _ in 0..count {
        text.push_str("0")?;
    }
    text.push_str("\n")?;
    Ok(text)
}

// What a run of no turns gives, with so many registers in clusters of a mode.
fn is_run<R: AllocGlobal + Threads + Sync>(
    rt: &R,
    count: usize,
    mode: &str,
) -> Result<bool, OutOfMemory> {
    let net = wide(rt.alloc(), count)?;
    let end = end(rt.alloc(), count)?;
    let wanted = Wanted {
        status: 0,
        text: end.as_str(),
    };
    let line = format!(in rt.alloc(); "desync run n v --clusters {mode}")?;
    gives(rt, &[("n", net.as_str()), ("v", "")], line.as_str(), wanted)
}

// 722 such registers have 1,046,904 required orders, and 723 have 1,049,800.
#[test]
fn arcs_are_counted_to_their_limit(rt: HostRuntime) -> Result<(), Fail> {
    assert!(rt; is_run(&rt, 722, "each")?);
    assert!(rt; is_run(&rt, 723, "one")?);
    let net = wide(rt.alloc(), 723)?;
    let refused = Wanted {
        status: 1,
        text: "n: too many arcs (limit 1048576)\n",
    };
    let files = [("n", net.as_str()), ("v", "")];
    assert!(rt; gives(&rt, &files, "desync run n v --clusters each", refused)?);
    Ok(())
}
