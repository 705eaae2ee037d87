//! Clusters of the user's own, by `--groups`, and the text of `clusters`.
use crate::graph_tests::BUS;
use ds_trial::{play, play_behind};
use std::test::Fail;

// Groups by names and by patterns, and what is left by the mode.
const GROUPS: &str = "%$ desync clusters b --clusters bus
%= 0
q[0] q[1] # M0 S0
r # M1 S1
%$ desync clusters b
%$ desync clusters b --clusters=each
%= 0
q[0] # M0 S0
r # M1 S1
q[1] # M2 S2
%f
r q[1]
%$ desync clusters b --groups f
%$ desync clusters --groups=f --clusters bus b
%= 0
q[0] # M0 S0
r q[1] # M1 S1
%f
q*
%$ desync clusters b --groups f
%$ desync clusters b --groups f --clusters one
%= 0
q[0] q[1] # M0 S0
r # M1 S1
%f
q[0]
*
%$ desync clusters b --groups f
%= 0
q[0] # M0 S0
r q[1] # M1 S1
%f
r
r
%$ desync clusters b --groups f
%= 1
f:2: repeated register r
%f
x*
%$ desync clusters b --groups f
%= 1
f:1: unknown register x*
%f
q[0] # one
# two
q[1] \\
r
%$ desync clusters b --groups f
%= 0
q[0] # M0 S0
r q[1] # M1 S1
%f
q[0]
%$ desync clusters b --clusters bus --groups f
%= 0
q[0] # M0 S0
r # M1 S1
q[1] # M2 S2
";

#[test]
fn groups_are_clusters(rt: HostRuntime) -> Result<(), Fail> {
    play_behind(&rt, BUS, GROUPS, 12)
}

// What the other commands make of groups is what they make of the mode with the same clusters.
const COMMANDS: &str = "%f
q*
%v
1
0
%l
IN+ 1
IN- 1
M0+ 1
M0- 1
M1+ 1
M1- 1
OUT+ 1
OUT- 1
S0+ 1
S0- 1
%d
M0+ S0+ 3
S0+ M1+ 2
M1+ S1+ 4
S1+ M0+ 1
%$ desync graph b --clusters bus
%$ desync graph b --groups f
%$ desync graph b --groups f --clusters one
%= 0 < g
%$ desync accept b g --clusters bus
%$ desync accept b g --groups f
%= 0 < ranks
S0+ 3
S0- 4
=>
S0+ 2
S0- 3
M1+ 0
M1- 1
S1+ 3
S1- 4
%$ desync replay b v l --clusters bus
%$ desync replay b v l --groups f
%$ desync replay b v l --groups f --graph g
%= 0
q[0]: 1
r: -
q[1]: 0
fired 10 of 24
%$ desync run b v --clusters bus
%$ desync run b v --groups f
%$ desync run b v --groups=f --graph g --jobs 2
%= 0
0 0 000
1 0 100
end 010
%p < dummied_period
period 7/1
cycle M0+ e S0+
=>
period 5/1
cycle M0+ S0+ M1+ S1+
%$ desync period b d --clusters bus
%$ desync period b d --groups f
%$ desync period b d --groups f --graph g
%= 0 < p
potential e 2
=>
potential M1+ 0
potential M1- 0
potential S1+ 4
potential S1- 4
";

#[test]
fn every_command_takes_groups(rt: HostRuntime) -> Result<(), Fail> {
    play_behind(&rt, BUS, COMMANDS, 14)
}

// A bus of which a part is taken, and a netlist without registers.
const PARTS: &str = "%n
.model four
.inputs a
.outputs q[3]
.latch a q[0] 0
.latch q[0] q[1] 0
.latch q[1] q[2] 0
.latch q[2] q[3] 0
.end
%f
q[1] q[2]
%$ desync clusters n --clusters bus --groups f
%$ desync clusters n --clusters one --groups f
%= 0
q[0] q[3] # M0 S0
q[1] q[2] # M1 S1
%f
q[2] q[1]
%$ desync clusters n --groups f
%= 0
q[0] # M0 S0
q[1] q[2] # M1 S1
q[3] # M2 S2
%f
q[3] q[2]
q[0]
%$ desync clusters n --groups f
%= 0
q[0] # M0 S0
q[1] # M1 S1
q[2] q[3] # M2 S2
%n
.model none
.inputs a
.outputs a
.end
%f
# nothing
%$ desync clusters n
%$ desync clusters n --clusters one
%$ desync clusters n --clusters bus --groups f
%= 0
%f
*
%$ desync clusters n --groups f
%= 1
f:1: unknown register *
";

#[test]
fn what_groups_leave_is_put_by_the_mode(rt: HostRuntime) -> Result<(), Fail> {
    play(&rt, PARTS, 8)
}

// What comes first: the netlist, the groups, and then the other files. Words that are no command
// line.
const OTHERS: &str = "%f
zz
%v
z
%$ desync run b v --groups f
%$ desync run b none --groups f --jobs 4
%$ desync run b none --groups f --graph none
%$ desync replay b none none --groups f
%$ desync accept b none --groups f
%$ desync period b none --groups f --graph none
%= 1
f:1: unknown register zz
%$ desync clusters b --groups none
%$ desync run b v --groups none
%$ desync graph b --groups none --shake
%= 3
desync: cannot read none
%n
.model n
.inputs a
.outputs y
.end
%$ desync clusters n --groups f
%$ desync graph n --groups none
%= 1
n: undriven net y
%f
q*
%$ desync run b v --groups f
%= 1
v:1: bad bit
%$ desync clusters
%$ desync clusters b b
%$ desync clusters b --groups
%$ desync clusters b --groups f --groups f
%$ desync clusters b --clusters two
%$ desync clusters b --slack 1
%$ desync clock b v --groups f
%$ desync check b --groups f
%$ desync demo 0 2 3 --groups f
%= 2
desync: bad command line
";

#[test]
fn groups_come_behind_the_netlist(rt: HostRuntime) -> Result<(), Fail> {
    play_behind(&rt, BUS, OTHERS, 21)
}
