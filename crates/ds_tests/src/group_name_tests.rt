//! Registers in files of groups, by the names that are printed.
use ds_trial::play;
use std::test::Fail;

// Registers of copies, by the names that `replay` prints.
const COPIES: &str = "%n
.model top
.inputs a
.outputs y
.subckt two i=a o=m
.subckt two i=m o=y
.end
.model two
.inputs i
.outputs o
.subckt one d=i q=t
.subckt one d=t q=o
.end
.model one
.inputs d
.outputs q
.latch d q[0] 0
.latch q[0] q 0
.end
%f
3/q[0] y
%$ desync clusters n --groups f --clusters one
%= 0
2/q[0] 1/t m 5/q[0] 4/t 6/q[0] # M0 S0
3/q[0] y # M1 S1
%f
*/q[0]
%$ desync clusters n --groups f --clusters one
%= 0
2/q[0] 3/q[0] 5/q[0] 6/q[0] # M0 S0
1/t m 4/t y # M1 S1
%f
1*
*/t
%$ desync clusters n --groups f --clusters one
%= 0
2/q[0] 3/q[0] m 5/q[0] 6/q[0] y # M0 S0
1/t # M1 S1
4/t # M2 S2
%f
m
03/q[0]
%$ desync clusters n --groups f
%= 1
f:2: unknown register 03/q[0]
%f
q[0]
%$ desync clusters n --groups f
%= 1
f:1: unknown register q[0]
%f
1/q[0]
%$ desync clusters n --groups f
%= 1
f:1: unknown register 1/q[0]
%f
4294967299/q[0]
%$ desync clusters n --groups f
%= 1
f:1: unknown register 4294967299/q[0]
%f
0/m
%$ desync clusters n --groups f
%= 1
f:1: unknown register 0/m
%f
y 4/t
*/t 4/t
%$ desync clusters n --groups f
%= 1
f:2: repeated register 4/t
";

#[test]
fn registers_of_copies_are_named(rt: HostRuntime) -> Result<(), Fail> {
    play(&rt, COPIES, 9)
}

// Two registers of one name, one of a copy and one that is named like it: a word takes both.
const ALIKE: &str = "%n
.model top
.inputs a
.outputs 1/q y
.latch a 1/q 0
.subckt one d=a o=y
.end
.model one
.inputs d
.outputs o
.latch d q 0
.latch q o 0
.end
%w
1/q 1/q # M0 S0
y # M1 S1
%f
1/q
%$ desync clusters n --groups f
%= 0 < w
%f
*q
%$ desync clusters n --groups f --clusters one
%= 0 < w
%f
y 1/q
1/q
%$ desync clusters n --groups f
%= 1
f:2: repeated register 1/q
";

#[test]
fn names_that_are_printed_alike_go_together(rt: HostRuntime) -> Result<(), Fail> {
    play(&rt, ALIKE, 3)
}
