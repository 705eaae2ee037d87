//! What the lines of a file of groups say, and its faults.
use crate::graph_tests::BUS;
use ds_trial::{play, play_behind};
use std::test::Fail;

// What the lines of a file say: nothing at all, a comment right behind a word, joined lines, and
// what `clusters` itself writes.
const LINES: &str = "%w
q[0] q[1] # M0 S0
r # M1 S1
%f
%$ desync clusters b --clusters bus --groups f
%$ desync clusters b --groups w
%$ desync clusters b --groups w --clusters one
%= 0 < w
%f
  # nothing
\t

\\
%$ desync clusters b --clusters bus --groups f
%= 0 < w
%f
q[0]#r
r #r
q[1]
%$ desync clusters b --groups f --clusters one
%= 0
q[0] # M0 S0
r # M1 S1
q[1] # M2 S2
%f
q[0] \\
\tr \\

q[1]
%$ desync clusters b --groups f
%= 0
q[0] r # M0 S0
q[1] # M1 S1
%f

r # one \\
q[1] \\
q[0]
%$ desync clusters b --groups f
%= 0 < w
";

#[test]
fn groups_are_logical_lines(rt: HostRuntime) -> Result<(), Fail> {
    play_behind(&rt, BUS, LINES, 7)
}

// The first faulty word of the first faulty line, by the first physical line: words that are no
// register's name, and ones that an earlier word leaves nothing.
const FAULTS: &str = "%f
# none
q[0] \\
zz r q[0]
%$ desync clusters b --groups f
%= 1
f:2: unknown register zz
%f
q[0]

r \\
q[1] \\
q[0] zz
%$ desync clusters b --groups f
%= 1
f:3: repeated register q[0]
%f
*
zz
*
%$ desync clusters b --groups f
%= 1
f:2: unknown register zz
%f
q* r
*
zz
%$ desync clusters b --groups f
%= 1
f:2: repeated register *
%f
q[0] q[0]
%$ desync clusters b --groups f
%= 1
f:1: repeated register q[0]
%f
a
%$ desync clusters b --groups f
%= 1
f:1: unknown register a
%f
r
clk
%$ desync clusters b --groups f
%= 1
f:2: unknown register clk
%f
M0
%$ desync clusters b --groups f
%= 1
f:1: unknown register M0
%f
q[0]
.end
r
%$ desync clusters b --groups f
%= 1
f:2: unknown register .end
%f
q[?]
%$ desync clusters b --groups f
%= 1
f:1: unknown register q[?]
%f
q
%$ desync clusters b --groups f --clusters bus
%= 1
f:1: unknown register q
%f
0/r
%$ desync clusters b --groups f
%= 1
f:1: unknown register 0/r
%f
r*r
%$ desync clusters b --groups f
%= 1
f:1: unknown register r*r
";

#[test]
fn faults_of_groups_are_named(rt: HostRuntime) -> Result<(), Fail> {
    play_behind(&rt, BUS, FAULTS, 13)
}

// Names with stars: the name of a register is no pattern, and a doubled star makes it one.
const STARS: &str = "%s
.model stars
.inputs a
.outputs x
.latch a a*b 0
.latch a*b aab 0
.latch aab * 0
.latch * x 0
.end
%f
a*b
%$ desync clusters s --groups f --clusters one
%= 0
a*b # M0 S0
aab * x # M1 S1
%w
a*b aab # M0 S0
* x # M1 S1
%f
a**b
%$ desync clusters s --groups f --clusters one
%= 0 < w
%f
*b
%$ desync clusters s --groups f --clusters one
%= 0 < w
%f
*b*
%$ desync clusters s --groups f --clusters one
%= 0 < w
%w
a*b aab x # M0 S0
* # M1 S1
%f
*
%$ desync clusters s --groups f --clusters one
%= 0 < w
%f
*
**
%$ desync clusters s --groups f
%= 0 < w
%w
a*b aab * x # M0 S0
%f
**
%$ desync clusters s --groups f
%= 0 < w
%f
***** # all
%$ desync clusters s --groups f
%= 0 < w
%f
**a*a**
%$ desync clusters s --groups f --clusters one
%= 0
a*b * x # M0 S0
aab # M1 S1
%f
**
*
%$ desync clusters s --groups f
%= 1
f:2: repeated register *
%f
a*b
a*b
%$ desync clusters s --groups f
%= 1
f:2: repeated register a*b
%f
x a*b a*b* *a
%$ desync clusters s --groups f
%= 1
f:1: unknown register *a
%f
a*b*b
%$ desync clusters s --groups f
%= 1
f:1: unknown register a*b*b
";

#[test]
fn a_name_with_a_star_is_no_pattern(rt: HostRuntime) -> Result<(), Fail> {
    play(&rt, STARS, 13)
}
