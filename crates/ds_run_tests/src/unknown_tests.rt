//! Unknown values: in vectors, in registers, in tables and in what is printed.
use ds_trial::{play, play_behind};
use std::test::Fail;

// A vector may be unknown, and so is what registers take from it.
const VECTORS: &str = "%v
1
x
%$ desync clock toggle v
%$ desync run toggle v
%$ desync run toggle v --jobs 3
%= 0
0 0 0
1 1 1
end x
%v
x
0
1
%$ desync clock shift v
%$ desync run shift v
%$ desync run shift v --jobs 3
%= 0
0 0 00
1 0 x0
2 x 0x
end 10
";

// How each of these netlists is run, and vectors.
const WAYS: &str = "%some
1
x
0
%ways
desync clock n v
desync run n v
desync run n v --jobs 3
";

// Where no initial value is written, or 3, a register starts at an unknown value.
const STARTS: &str = "%n
.model toggle
.inputs clk e
.outputs q
.names e q d
01 1
10 1
.latch d q re clk
%v < four
%$ < ways
%= 0
0 x x
1 x x
2 x x
3 x x
end x
%n < shift
.latch a q0 re clk 0
.latch q0 q1 re clk 0
=>
.latch a q0 re clk 3
.latch q0 q1 re clk
%v < some
%$ < ways
%= 0
0 x xx
1 x 1x
2 1 x1
end 0x
";

// Where the initial value does not matter, a register starts at 0.
const ANY: &str = "%n < shift
.latch a q0 re clk 0
.latch q0 q1 re clk 0
=>
.latch a q0 re clk 2
.latch q0 q1 re clk 2
%v < some
%$ < ways
%= 0
0 0 00
1 0 10
2 1 x1
end 0x
";

// A table that is 1 for both values of its input, one that does not look at it, and an off-set.
const TABLES: &str = "%n
.model t
.inputs a
.outputs y
.names a y
0 1
1 1
.end
%v
x
0
%$ < ways
%= 0
0 x -
1 1 -
end -
%n
.model t
.inputs a
.outputs y
.names a y
- 1
.end
%$ < ways
%= 0
0 1 -
1 1 -
end -
%n
.model t
.inputs a b
.outputs y
.names a b y
11 0
.end
%v
x0
x1
xx
11
%$ < ways
%= 0
0 1 -
1 x -
2 x -
3 0 -
end -
";

// What a register has stored may be unknown.
const STORED: &str = "%v
x
%$ desync replay toggle v turn
%= 0
q: x
fired 8 of 8
";

// No other character is a value, and the width comes first.
const OTHERS: &str = "%v
1
2
%$ desync run toggle v
%= 1
v:2: bad bit
%v
1
X
%$ desync run toggle v
%= 1
v:2: bad bit
%v
1
-
%$ desync run toggle v
%= 1
v:2: bad bit
%v
1
?
%$ desync run toggle v
%= 1
v:2: bad bit
%v
1x
%$ desync run toggle v
%= 1
v:1: bad width
";

#[test]
fn a_vector_may_be_unknown(rt: HostRuntime) -> Result<(), Fail> {
    play(&rt, VECTORS, 6)
}

#[test]
fn a_register_without_an_initial_value_is_unknown(rt: HostRuntime) -> Result<(), Fail> {
    play_behind(&rt, WAYS, STARTS, 6)
}

#[test]
fn a_start_that_does_not_matter_is_zero(rt: HostRuntime) -> Result<(), Fail> {
    play_behind(&rt, WAYS, ANY, 3)
}

#[test]
fn a_table_is_known_where_its_rows_decide_it(rt: HostRuntime) -> Result<(), Fail> {
    play_behind(&rt, WAYS, TABLES, 9)
}

#[test]
fn a_stored_value_may_be_unknown(rt: HostRuntime) -> Result<(), Fail> {
    play(&rt, STORED, 1)
}

#[test]
fn no_other_character_is_a_value(rt: HostRuntime) -> Result<(), Fail> {
    play(&rt, OTHERS, 5)
}
