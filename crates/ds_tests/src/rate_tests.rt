//! The exact period of a graph that stands alone.
use ds_trial::play;
use std::test::Fail;

// The toggle's own graph, whose period is that of `period`; one with a dummy, and two arcs with the
// same ends; one with an event without arcs, and a slower cycle beside; and two graphs of no
// controller: a handshake, whose events stand in the order of the graph, and an event that waits
// for itself.
const RATES: &str = "%$ desync rate graph delays
%$ desync period toggle delays
%= 0 < period
%$ desync rate dummied dummied_delays
%$ desync period toggle dummied_delays --graph dummied
%= 0 < dummied_period
%p < dummied_period
period 7/1
cycle M0+ e S0+
potential IN+ 0
potential IN- 0
=>
period 8589934590/1
cycle a b
potential IN+ 0
potential IN- 11
%$ desync rate beside beside_delays
%= 0 < p
potential w 5
potential f 0
potential a 0
potential b 4294967295
%g
.outputs b a
.graph
a+ b+
b+ a-
a- b-
b- a+
.marking { <b-,a+> }
%d
a+ b+ 1
b+ a- 2
a- b- 3
b- a+ 4
%$ desync rate g d
%= 0
period 10/1
cycle b+ a- b- a+
potential b+ 1
potential b- 6
potential a+ 0
potential a- 3
%g
.dummy a
.graph
a a
.marking { <a,a>=2 }
%d
a a 5
%$ desync rate g d
%= 0
period 5/2
cycle a
potential a 0
";

#[test]
fn graphs_that_stand_alone_have_a_period(rt: HostRuntime) -> Result<(), Fail> {
    play(&rt, RATES, 7)
}

// The graph's text, then a cycle without tokens, then no cycle at all, and then the delays.
const FAULTS: &str = "%d
x
%$ desync rate toggle nofile
%= 1
toggle:4: unsupported command .names
%g
.outputs b a
.graph
a+ b+
b+ a+
b+ b-
b- b+
.marking { <b-,b+> }
%$ desync rate g nofile
%= 1
g: token-free cycle: b+ a+
%g
.outputs b a
.graph
a+ b+ b-
b+ a-
%$ desync rate g nofile
%= 1
g: no cycle
%g
.outputs a
.graph
%empty
%$ desync rate g nofile
%= 1
g: no cycle
%$ desync rate empty d
%= 1
empty: no cycle
%g
.outputs a
.graph
a+ a-
a- a+
.marking { <a-,a+> }
%$ desync rate g d
%= 1
d:1: bad word
%d
a+ a- 1
a- a- 2
%$ desync rate g d
%= 1
d:2: unknown order a- to a-
%d
a+ a- 1
a- a+ 2
a+ a- 1
%$ desync rate g d
%= 1
d:3: repeated order a+ to a-
%$ desync rate nofile d
%$ desync rate g nofile
%= 3
desync: cannot read nofile
%$ desync rate
%$ desync rate g
%$ desync rate g d d
%$ desync rate g d --graph g
%$ desync rate g d --slack 1
%$ desync rate g d --clusters one
%= 2
desync: bad command line
";

#[test]
fn faults_of_graphs_that_stand_alone_are_named(rt: HostRuntime) -> Result<(), Fail> {
    play(&rt, FAULTS, 16)
}
