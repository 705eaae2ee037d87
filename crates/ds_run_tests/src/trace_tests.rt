//! Traces and reports, and words and files that lack.
use ds_trial::play;
use std::test::Fail;

// A toggle, with vectors and without; registers in a row, on one clock and where one names none; a
// counter; an off-set, a constant and a joined line; copies; tables against the order of the file;
// and a skipped command.
const TRACES: &str = "%both
desync run n v
desync clock n v
%$ desync run toggle four
%$ desync clock toggle four
%= 0 < trace
%v
%$ desync run toggle v
%$ desync clock toggle v
%= 0
end 0
%v
1
0
1
%$ desync run shift v
%$ desync clock shift v
%n < shift
.latch a q0 re clk 0
.latch q0 q1 re clk 0
=>
.latch a q0 re c1 0
.latch q0 q1 re NIL 0
%$ < both
%= 0
0 0 00
1 0 10
2 1 01
end 10
%n
.model count
.outputs b1 b0
.names b0 n0
0 1
.names b0 b1 n1
01 1
10 1
.latch n0 b0 0
.latch n1 b1 0
.end
%v
-
-
-
%$ < both
%= 0
0 00 00
1 01 10
2 10 01
end 11
%n
.model mix
.inputs a \\
 b
.outputs y one
.names a b y # by its off-set
11 0 # the only 0
.names one
1
.end
%v
11
10
%$ < both
%= 0
0 01 -
1 11 -
end -
%v
0
1
%$ desync run copies v
%$ desync clock copies v
%= 0
0 0 -
1 1 -
end -
%v
11
%$ desync run levels v
%$ desync clock levels v
%= 0
0 1 -
end -
%n < and
.area 5
00 1
.end
%v
%$ < both
%= 0
end -
";

#[test]
fn run_and_clock_print_the_trace(rt: HostRuntime) -> Result<(), Fail> {
    play(&rt, TRACES, 18)
}

// Netlists and their reports.
const REPORTS: &str = "%n
.model ring
.inputs a
.outputs y
.names a z y
11 1
.latch y z 0
.end
%$ desync check n
%$ desync check toggle
%= 0
nets 3
tables 1
registers 1
levels 1
%$ desync check levels
%= 0
nets 4
tables 2
registers 0
levels 2
";

#[test]
fn netlists_are_reported_on(rt: HostRuntime) -> Result<(), Fail> {
    play(&rt, REPORTS, 3)
}

// Words that lack, a file that is not there, and one with a fault before it.
const LACKS: &str = "%v
%$ desync
%$ desync run toggle
%= 2
desync: bad command line
%$ desync run toggle nofile
%= 3
desync: cannot read nofile
%$ desync run ring nofile
%= 1
ring: combinational cycle: y z
";

#[test]
fn words_and_files_may_fail(rt: HostRuntime) -> Result<(), Fail> {
    play(&rt, LACKS, 4)
}
