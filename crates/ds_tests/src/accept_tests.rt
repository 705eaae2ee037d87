//! Controller graphs of the user's, accepted and refused.
use ds_trial::{play, play_behind};
use std::test::Fail;

// Further graphs of the toggle that are accepted. `waits` has an order more than it must, and
// `walks` gives five orders by walks. Then come those with a signal that is no node: one that
// nothing waits for, an input or internal, and one that stands between two latches.
const GRAPHS: &str = "%waits < graph
IN- IN+
=>
IN- IN+ M0+
%turned < graph
.outputs IN OUT M0 S0
=>
.outputs S0 OUT M0 IN
%walks < graph
.graph
=>
.graph
IN+ IN- M0+
IN- IN+
OUT+ OUT-
OUT- S0+
M0+ M0-
M0- IN+ S0+
S0+ OUT+ S0-
S0- M0+
.marking { <IN-,IN+> <M0-,IN+> <S0+,OUT+> <S0-,M0+> }
.end
%input < graph
.outputs IN OUT M0 S0
=>
.inputs X
.outputs IN OUT M0 S0
%apart < graph
.graph
=>
.internal X
.graph
%between < graph
M0- IN+ M0+ S0+
=>
.internal X
.graph
M0- IN+ M0+ X+
X+ S0+
";

// Their ranks.
const ACCEPTED: &str = "%$ desync accept toggle graph
%$ desync accept toggle turned
%$ desync accept toggle walks
%= 0 < ranks
%$ desync accept toggle waits
%= 0 < ranks
M0+ 1
M0- 2
S0+ 3
S0- 4
=>
M0+ 2
M0- 3
S0+ 4
S0- 5
%$ desync accept toggle apart
%= 0 < ranks
X+ 0
X- 0
%$ desync accept toggle between
%= 0 < late
X+ 3
X- 0
";

#[test]
fn accepted_graphs_show_their_ranks(rt: HostRuntime) -> Result<(), Fail> {
    play_behind(&rt, GRAPHS, ACCEPTED, 6)
}

// Runs over the same graphs.
const RUNS: &str = "%v
1
0
1
%$ desync run toggle v --graph graph
%$ desync run toggle v --graph waits
%$ desync run toggle v --graph turned
%$ desync run toggle v --graph walks
%$ desync run toggle v --graph input
%$ desync run toggle v --graph input --jobs 4
%$ desync run toggle v --graph between
%$ desync run toggle v --graph between --jobs 4
%= 0
0 0 0
1 1 1
2 1 1
end 0
%$ desync run toggle four --graph walks --jobs 1
%$ desync run toggle four --graph walks --jobs 4
%= 0 < trace
";

#[test]
fn runs_over_accepted_graphs_print_the_clocked_trace(rt: HostRuntime) -> Result<(), Fail> {
    play_behind(&rt, GRAPHS, RUNS, 10)
}

// Logs over graphs with signals that are no nodes: each event counts for each vector, also where
// nothing waits for it, and what waits for it is not enabled before.
const EXTRA_LOGS: &str = "%v
1
%l
X- 1
IN+ 1
%$ desync replay toggle v l --graph apart
%= 0
q: -
fired 2 of 10
%l
X+ 1
X+ 2
%$ desync replay toggle v l --graph apart
%= 1
l:2: over limit
%l < begun
X+ 1
S0+ 1
%$ desync replay toggle v l --graph between
%= 0
q: -
fired 7 of 10
%l < begun
S0+ 1
%$ desync replay toggle v l --graph between
%= 1
l:6: not enabled: X+ to S0+
";

#[test]
fn events_of_no_node_stand_in_logs(rt: HostRuntime) -> Result<(), Fail> {
    play_behind(&rt, GRAPHS, EXTRA_LOGS, 4)
}

// Here M0+ alone waits for more than it must.
const LOGS: &str = "%v
1
0
1
%l
IN+ 1
M0+ 1
%$ desync replay toggle v l --graph waits
%= 1
l:2: not enabled: IN- to M0+
";

#[test]
fn logs_are_fired_over_the_named_graph(rt: HostRuntime) -> Result<(), Fail> {
    play_behind(&rt, GRAPHS, LOGS, 1)
}

// Graphs that are refused, with the line of their first fault.
const FAULTS: &str = "%v
1
0
1
%both
desync accept toggle g
desync run toggle v --graph g
%g < graph
M0- IN+ M0+ S0+
=>
M0- IN+ M0+
%$ < both
%= 1
g: missing order M0- to S0+ with 0 tokens (least walk 1)
%g < graph
S0- M0+ S0+
=>
S0- M0+ S0+
M0- p
p M0+
%$ < both
%= 1
g: token-free cycle: M0+ M0-
%g < graph
<S0+,OUT+> <S0+,M0+> <S0-,M0+> <S0-,S0+> }
=>
<S0+,M0+> <S0-,M0+> <S0-,S0+> }
%$ < both
%= 1
g: token-free cycle: OUT+ OUT- S0+
%g < graph
.graph
=>
.graph
.end
%$ < both
%= 1
g: missing order IN+ to IN- with 0 tokens (no walk)
%g < graph
.outputs IN OUT M0 S0
=>
.outputs IN OUT M0
.graph
.end
%$ < both
%= 1
g: missing event S0+
%g < graph
S0- M0+ S0+
=>
S0- M0+ S0+
IN+/2 IN-
%$ < both
%= 1
g:12: instance IN+/2
%g < graph
S0- M0+ S0+
=>
S0- M0+ S0+
M0- p
p M0+ S0+
%$ < both
%= 1
g:13: not a marked graph: p
%g < graph
S0- M0+ S0+
=>
S0- M0+ S0+
M0- p
%$ < both
%= 1
g:12: not a marked graph: p
%g < graph
<S0-,M0+> <S0-,S0+> }
=>
<S0-,M0+> <S0-,S0+> <M0+,IN+> }
%$ < both
%= 1
g:12: bad marking <M0+,IN+>
%g < graph
<S0-,M0+> <S0-,S0+> }
=>
<S0-,M0+> <S0-,S0+> <M0-,S0+> }
%$ < both
%= 1
g: missing order M0- to S0+ with 0 tokens (least walk 1)
";

#[test]
fn faults_of_graphs_are_named(rt: HostRuntime) -> Result<(), Fail> {
    play(&rt, FAULTS, 20)
}
