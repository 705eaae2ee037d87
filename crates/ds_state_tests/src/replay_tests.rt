//! Logs of firings, fired again.
use ds_trial::play;
use std::test::Fail;

// Netlists with vectors and logs, the last one with a register in a copy, and their states.
const STATES: &str = "%v
1
%$ desync replay toggle v turn
%= 0
q: 1
fired 8 of 8
%l
%$ desync replay toggle v l
%= 0
q: -
fired 0 of 8
%l
no log
firings
OUT+ 1

IN+ 1
%$ desync replay toggle v l
%= 0
q: -
fired 2 of 8
%v
1
0
%l
M1+ 1
M1- 1
IN+ 1
IN- 1
M0+ 1
M0- 1
S0+ 1
S0- 1
IN+ 2
M0+ 2
%$ desync replay shift v l
%= 0
q0: 1
q1: -
fired 10 of 24
%v
-
%l
M0+ 1
%$ desync replay copy v l
%= 0
1/q: -
fired 1 of 8
";

#[test]
fn logs_lead_to_states(rt: HostRuntime) -> Result<(), Fail> {
    play(&rt, STATES, 5)
}

// Logs of the toggle with one vector, and the line of their first fault.
const FAULTS: &str = "%v
1
%l
IN+ 1
M0+ 1
S0+ 1
%$ desync replay toggle v l
%= 1
l:3: not enabled: OUT- to S0+
%l
IN+ 2
%$ desync replay toggle v l
%= 1
l:1: wrong turn
%l
IN+ 1
IN- 1
IN+ 2
%$ desync replay toggle v l
%= 1
l:3: over limit
%l
X+ 1
%$ desync replay toggle v l
%= 1
l:1: unknown event X+
%l
IN+
%$ desync replay toggle v l
%= 1
l:1: bad word
%l
firings
IN+ 1
IN+ 1
%$ desync replay toggle v l
%= 1
l:3: wrong turn
";

#[test]
fn faults_of_logs_are_named_by_their_lines(rt: HostRuntime) -> Result<(), Fail> {
    play(&rt, FAULTS, 6)
}
