//! Controller graphs with a dummy: accepted, run, and logs fired over them.
use ds_trial::play;
use std::test::Fail;

// A dummy between two latches, with the ranks and the trace; and one that was a place before.
const GRAPHS: &str = "%g < graph
.graph
=>
.dummy e
.graph
%g < g
M0- IN+ M0+ S0+
=>
M0- IN+ M0+ e
e S0+
%$ desync accept toggle g
%= 0 < late
e 3
%$ desync run toggle four --graph g --jobs 1
%$ desync run toggle four --graph g --jobs 4
%= 0 < trace
%g < graph
S0- M0+ S0+
=>
S0- M0+ S0+
M0- e
e S0+
.dummy e
%$ desync accept toggle g
%= 1
g:14: bad word e
";

#[test]
fn dummies_are_accepted_and_run(rt: HostRuntime) -> Result<(), Fail> {
    play(&rt, GRAPHS, 4)
}

// Logs over the same graph, where the dummy is declared between its lines: a whole one, and one
// without the line of the dummy.
const LOGS: &str = "%g < graph
M0- IN+ M0+ S0+
=>
.dummy e
.graph
M0- IN+ M0+ e
e S0+
%v
1
%log < begun
e 1
S0+ 1
%$ desync replay toggle v log --graph g
%= 0
q: -
fired 7 of 9
%log < begun
S0+ 1
%$ desync replay toggle v log --graph g
%= 1
log:6: not enabled: e to S0+
";

#[test]
fn dummies_stand_in_logs(rt: HostRuntime) -> Result<(), Fail> {
    play(&rt, LOGS, 2)
}
