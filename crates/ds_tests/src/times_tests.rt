//! When events fire, turn by turn. The times are worked out from the definition of a schedule.
use ds_trial::{play, play_behind};
use std::test::Fail;

// The events that fire at 0 in the first turn.
const FIRST: &str = "%first
IN+ 1 0
OUT+ 1 0
IN- 1 0
OUT- 1 0
M0+ 1 0
";

// The toggle: two turns, one, and none, behind the same checks; and no delays at all.
const TIMES: &str = "%one < first
M0- 1 2
S0+ 1 3
S0- 1 3
%$ desync times toggle delays 2
%$ desync times toggle delays 02 --clusters one
%= 0 < one
IN+ 2 2
OUT+ 2 3
IN- 2 2
OUT- 2 3
M0+ 2 7
M0- 2 9
S0+ 2 10
S0- 2 10
%$ desync times toggle delays 1
%= 0 < one
%$ desync times toggle delays 0
%= 0
%none
%$ desync times toggle none 1
%= 0 < first
M0- 1 0
S0+ 1 0
S0- 1 0
";

#[test]
fn events_fire_as_early_as_they_may(rt: HostRuntime) -> Result<(), Fail> {
    play_behind(&rt, FIRST, TIMES, 5)
}

// With slack a master opens again before its slave has closed.
const SLACKS: &str = "%d
M0+ S0+ 3
S0+ S0- 5
S0- M0+ 10
%turns < first
M0- 1 0
S0+ 1 3
S0- 1 8
IN+ 2 0
OUT+ 2 3
IN- 2 0
OUT- 2 3
%$ desync times toggle d 2
%= 0 < turns
M0+ 2 18
M0- 2 18
S0+ 2 21
S0- 2 26
%$ desync times toggle d 3 --slack 2
%= 0 < turns
M0+ 2 3
M0- 2 3
S0+ 2 8
S0- 2 13
IN+ 3 0
OUT+ 3 8
IN- 3 0
OUT- 3 8
M0+ 3 8
M0- 3 8
S0+ 3 13
S0- 3 18
";

#[test]
fn slack_is_in_the_times(rt: HostRuntime) -> Result<(), Fail> {
    play_behind(&rt, FIRST, SLACKS, 2)
}

// Graphs of the user's, and the expansion of the toggle's own graph. In the second graph f has no
// arcs, and the times of a and b pass 32 bits.
const GRAPHS: &str = "%$ desync times toggle dummied_delays 2 --graph dummied
%= 0 < first
M0- 1 0
e 1 2
S0+ 1 3
S0- 1 3
IN+ 2 0
OUT+ 2 3
IN- 2 0
OUT- 2 3
M0+ 2 7
M0- 2 7
e 2 9
S0+ 2 10
S0- 2 10
%$ desync times toggle beside_delays 3 --graph=beside
%= 0
IN+ 1 0
OUT+ 1 0
f 1 0
a 1 0
OUT- 1 0
M0+ 1 0
w 1 5
b 1 4294967295
IN- 1 11
M0- 1 0
e 1 2
S0+ 1 3
S0- 1 3
IN+ 2 11
OUT+ 2 3
f 2 0
a 2 8589934590
OUT- 2 3
M0+ 2 11
w 2 16
b 2 12884901885
IN- 2 22
M0- 2 11
e 2 13
S0+ 2 14
S0- 2 14
IN+ 3 22
OUT+ 3 14
f 3 0
a 3 17179869180
OUT- 3 14
M0+ 3 22
w 3 27
b 3 21474836475
IN- 3 33
M0- 3 22
e 3 24
S0+ 3 25
S0- 3 25
%d
M0+ r1+ 1
r1+ S0+ 2
S0+ r3+ 1
r3+ M0+ 3
M0+ M0- 2
M0- a3+ 5
%$ desync times toggle d 2 --graph toggled
%= 0
IN+ 1 0
OUT+ 1 0
IN- 1 0
OUT- 1 0
r0+ 1 0
M0+ 1 0
a2+ 1 0
M0- 1 2
r1+ 1 1
r2- 1 0
a0+ 1 2
a2- 1 0
a3+ 1 7
S0+ 1 7
r0- 1 2
r3- 1 7
S0- 1 7
a0- 1 2
r2+ 1 7
a3- 1 7
a1+ 1 7
r3+ 1 8
r1- 1 7
a1- 1 7
IN+ 2 2
OUT+ 2 7
IN- 2 2
OUT- 2 7
r0+ 2 2
M0+ 2 11
a2+ 2 7
M0- 2 13
r1+ 2 12
r2- 2 7
a0+ 2 13
a2- 2 7
a3+ 2 18
S0+ 2 18
r0- 2 13
r3- 2 18
S0- 2 18
a0- 2 13
r2+ 2 18
a3- 2 18
a1+ 2 18
r3+ 2 19
r1- 2 18
a1- 2 18
";

#[test]
fn graphs_of_a_file_are_timed(rt: HostRuntime) -> Result<(), Fail> {
    play_behind(&rt, FIRST, GRAPHS, 3)
}

// Each check comes for any number of turns, also for none: the netlist, the groups, the graph, and
// then the delays.
const FAULTS: &str = "%d
M0+ S0+ 3
M0+ S1+ 1
%f
q
q
%e
.graph
%n
.model n
.latch y y re clk
.outputs y z
.end
%$ desync times n d 0 --groups f --graph e
%= 1
n: undriven net z
%$ desync times toggle d 0 --groups f --graph e
%= 1
f:2: repeated register q
%$ desync times toggle d 0 --graph e
%= 1
e: missing event IN+
%$ desync times toggle d 0
%$ desync times toggle d 7 --slack 15
%= 1
d:2: unknown order M0+ to S1+
%d
M0+ S0+ 3
M0+ S0+ 3
%$ desync times toggle d 0
%= 1
d:2: repeated order M0+ to S0+
%d
M0+ S0+ 4294967296
%$ desync times toggle d 0
%= 1
d:1: bad word
%$ desync times toggle nofile 0
%= 3
desync: cannot read nofile
%$ desync times toggle d 0 --graph nofile
%= 3
desync: cannot read nofile
%$ desync times nofile d 0
%= 3
desync: cannot read nofile
%$ desync times toggle d
%$ desync times toggle d 65537
%$ desync times toggle d x
%$ desync times toggle d 1 --slack 16
%$ desync times toggle d 1 --clusters two
%= 2
desync: bad command line
";

#[test]
fn each_check_comes_for_any_number_of_turns(rt: HostRuntime) -> Result<(), Fail> {
    play(&rt, FAULTS, 15)
}
