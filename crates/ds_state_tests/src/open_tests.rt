//! What open latches let through, behind what registers have stored.
use ds_trial::play;
use std::test::Fail;

// A toggle at the begin of a turn, after it, within it, with nothing fired, and in its second turn.
const TOGGLES: &str = "%v
1
%l
IN+ 1
M0+ 1
%$ desync replay toggle v l --transparent
%$ desync replay --transparent toggle v l --clusters one
%= 0
q: -
fired 2 of 8
IN open 1
M0 open 1
%$ desync replay toggle v l
%= 0
q: -
fired 2 of 8
%$ desync replay toggle v turn --transparent
%= 0
q: 1
fired 8 of 8
%l
OUT+ 1
IN+ 1
M0+ 1
M0- 1
OUT- 1
S0+ 1
%$ desync replay toggle v l --transparent
%= 0
q: -
fired 6 of 8
IN open 1
S0 open 1
%l
%$ desync replay toggle v l --transparent
%= 0
q: -
fired 0 of 8
%v
1
1
%l
IN+ 1
M0+ 1
IN- 1
M0- 1
OUT+ 1
OUT- 1
S0+ 1
S0- 1
IN+ 2
OUT+ 2
M0+ 2
%$ desync replay toggle v l --transparent
%= 0
q: 1
fired 11 of 16
IN open 1
OUT open 1
M0 open 0
";

#[test]
fn open_latches_of_a_toggle_show_their_rows(rt: HostRuntime) -> Result<(), Fail> {
    play(&rt, TOGGLES, 7)
}

// Two registers in a row. In the first log the second master is a turn ahead of what its input has
// stored, and shows it by the open slave before it. In the second one both are one cluster.
const SHIFTS: &str = "%v
1
0
%l
OUT+ 1
OUT- 1
M1+ 1
M1- 1
IN+ 1
M0+ 1
M0- 1
S0+ 1
S1+ 1
S1- 1
M1+ 2
OUT+ 2
%$ desync replay shift v l --transparent
%= 0
q0: -
q1: 0
fired 12 of 24
IN open 1
OUT open 0
S0 open 1
M1 open 1
%l
IN+ 1
M0+ 1
%$ desync replay shift v l --transparent --clusters one
%= 0
q0: -
q1: -
fired 2 of 16
IN open 1
M0 open 10
";

#[test]
fn open_latches_of_two_registers_show_their_rows(rt: HostRuntime) -> Result<(), Fail> {
    play(&rt, SHIFTS, 2)
}

// Without columns the row of the vectors has no values, and without registers there are two nodes.
const FEW: &str = "%n
.model n
.outputs q
.names q d
0 1
.latch d q 0
.end
%v
-
%l
IN+ 1
M0+ 1
%$ desync replay n v l --transparent
%= 0
q: -
fired 2 of 8
IN open -
M0 open 1
%v
x
%l
IN+ 1
OUT+ 1
%$ desync replay wire v l --transparent
%= 0
fired 2 of 4
IN open x
OUT open x
";

#[test]
fn an_open_latch_may_have_no_value_or_an_unknown_one(rt: HostRuntime) -> Result<(), Fail> {
    play(&rt, FEW, 2)
}

// A log with a fault, and words that are no command line.
const OTHERS: &str = "%v
1
%l
IN+ 1
M0+ 1
S0+ 1
%$ desync replay toggle v l --transparent
%= 1
l:3: not enabled: OUT- to S0+
%l
%$ desync replay toggle v l --transparent --transparent
%$ desync replay toggle v l --transparent=x
%$ desync replay toggle v l --transparent=
%$ desync replay toggle v --transparent
%$ desync --transparent replay toggle v l
%$ desync run toggle v --transparent
%$ desync clock toggle v --transparent
%$ desync graph toggle --transparent
%= 2
desync: bad command line
";

#[test]
fn faults_come_before_open_latches(rt: HostRuntime) -> Result<(), Fail> {
    play(&rt, OTHERS, 9)
}
