//! The exact period of a controller graph, and the faults of delays.
use ds_outside::OpenGate;
use ds_trial::{TOGGLE, Wanted, gives, play, printed};
use std::alloc::{AllocError, Global};
use std::test::Fail;

// Two registers in a ring, and a toggle, each with delays; a comment and a joined line among them.
const PERIODS: &str = "%rr
.model rr
.outputs q1
.latch q1 q0 re clk 0
.latch q0 q1 re clk 1
.end
%d
M0+ S0+ 4
S0+ M1+ 7
M1+ S1+ 5
S1+ M0+ 5
%p < dummied_period
period 7/1
cycle M0+ e S0+
=>
period 21/2
cycle M0+ S0+ M1+ S1+
%$ desync period rr d
%$ desync period rr d --clusters each
%= 0 < p
potential S0+ 3
potential S0- 3
potential e 2
=>
potential S0+ 8
potential S0- 8
potential M1+ 1
potential M1- 1
potential S1+ 11
potential S1- 11
%d
# The first order.
M0+ S0+ 3

S0+ \\
M0+ 0000000004
M0+ M0- 2 # the third
%$ desync period toggle d
%= 0 < period
%d
IN+ IN- 4294967295
IN- IN+ 4294967295
%$ desync period toggle d
%= 0
period 8589934590/1
cycle IN+ IN-
potential IN+ 0
potential IN- 4294967295
potential OUT+ 0
potential OUT- 0
potential M0+ 0
potential M0- 0
potential S0+ 0
potential S0- 0
";

#[test]
fn periods_are_exact(rt: HostRuntime) -> Result<(), Fail> {
    play(&rt, PERIODS, 4)
}

// With slack a master may open more often before its slave has closed: the cycle that waits for it
// has more tokens, until another one is slower.
const SLACKS: &str = "%d
M0+ S0+ 3
S0+ S0- 5
S0- M0+ 10
%p < dummied_period
period 7/1
cycle M0+ e S0+
=>
period 18/1
cycle M0+ S0+ S0-
%p < p
potential S0- 3
potential e 2
=>
potential S0- 8
%$ desync period toggle d
%$ desync period toggle d --slack 0
%= 0 < p
%$ desync period toggle d --slack 2
%= 0 < p
period 18/1
=>
period 6/1
%$ desync period toggle d --slack=3 --clusters one
%= 0 < p
period 18/1
cycle M0+ S0+ S0-
=>
period 5/1
cycle S0+ S0-
";

#[test]
fn slack_is_in_the_period(rt: HostRuntime) -> Result<(), Fail> {
    play(&rt, SLACKS, 4)
}

// A graph of the user's: its events, a dummy among them, and two arcs with the same ends, of which
// the cycle takes that of fewer tokens; lines that name none of its arcs, and the same ends twice.
const GRAPHS: &str = "%$ desync period toggle dummied_delays --graph dummied
%$ desync period toggle dummied_delays --graph=dummied --slack 3
%= 0 < dummied_period
%d
S0+ M0+ 4
M0+ S0+ 3
%$ desync period toggle d --graph dummied
%= 1
d:2: unknown order M0+ to S0+
%d
S0+ M0+ 4
S0+ M0+ 4
%$ desync period toggle d --graph dummied
%= 1
d:2: repeated order S0+ to M0+
%h < dummied
p=3 <S0-,M0+> <S0-,S0+> }
=>
p=3 <S0-,M0+>=2 <S0-,S0+> }
%$ desync period toggle none --graph h
%= 1
h: missing order S0- to M0+ with 1 tokens (least walk 2)
%$ desync period toggle d --graph h --slack 1
%= 1
d:2: repeated order S0+ to M0+
%$ desync period toggle d --graph none
%= 3
desync: cannot read none
";

#[test]
fn graphs_of_a_file_have_a_period(rt: HostRuntime) -> Result<(), Fail> {
    play(&rt, GRAPHS, 7)
}

// Lines that give no delays, with the text of the first fault. Each is the second line of the file.
const FAULTS: &str = "M0+ S0+|bad word
M0+ S0+ 4 5|bad word
M0+ S0+ 4294967296|bad word
M0+ S0+ 00000000001|bad word
M0+ S0+ +1|bad word
M0+ S0+ x|bad word
M0+ S1+ x|bad word
M0+ S1+ 4|unknown order M0+ to S1+
X+ S0+ 1|unknown order X+ to S0+
M0+ M0+ 1|unknown order M0+ to M0+
S0+ S0 1|unknown order S0+ to S0
IN+ IN- 2|repeated order IN+ to IN-
IN+ IN- 4294967296|bad word
";

#[test]
fn faults_of_delays_are_named(rt: HostRuntime) -> Result<(), Fail> {
    for case in FAULTS.lines() {
        let (line, want) = case.split_once("|").unwrap_or((case, ""));
        let delays = format!(in rt.alloc(); "IN+ IN- 1\n{line}\nX\n")?;
        let text = format!(in rt.alloc(); "d:2: {want}\n")?;
        let wanted = Wanted {
            status: 1,
            text: text.as_str(),
        };
        let all = [("n", TOGGLE), ("d", delays.as_str())];
        assert!(rt; gives(&rt, &all, "desync period n d", wanted)?, "{case}");
    }
    Ok(())
}

// What comes before the delays, and words that are no command line.
const OTHERS: &str = "%d
x
%n
.model n
.names y
.names y
.end
%$ desync period n d
%= 1
n: net y driven twice: table at 2 and table at 3
%n
.model n
.latch y y re clk
.outputs y z
.end
%$ desync period n d
%= 1
n: undriven net z
%$ desync period toggle none
%= 3
desync: cannot read none
%$ desync period toggle
%$ desync period toggle d d
%$ desync period toggle d --graph
%$ desync period toggle d --slack 16
%$ desync period toggle d --clusters two
%= 2
desync: bad command line
";

#[test]
fn what_comes_before_the_delays_is_named_first(rt: HostRuntime) -> Result<(), Fail> {
    play(&rt, OTHERS, 8)
}

// So many bytes of a comment.
fn comment(alloc: Global, bytes: usize) -> Result<String, AllocError> {
    let mut text = String::from_str(alloc, "#")?;
    for _ in 1..bytes {
        text.push_str(".")?;
    }
    Ok(text)
}

#[test]
fn delays_are_too_long_past_their_limit(rt: HostRuntime) -> Result<(), Fail> {
    let text = comment(rt.alloc(), 16_777_217)?;
    let wanted = Wanted {
        status: 1,
        text: "d: too long (limit 16777216)\n",
    };
    let all = [("n", TOGGLE), ("d", text.as_str())];
    assert!(rt; gives(&rt, &all, "desync period n d", wanted)?);
    Ok(())
}

// Delays that are none, or all 0: which cycle is shown is free.
#[test]
fn without_delays_the_period_is_0(rt: HostRuntime) -> Result<(), Fail> {
    for delays in ["", "IN+ IN- 0\n"] {
        let all = [("n", TOGGLE), ("d", delays)];
        let text = printed(&rt, &all, "desync period n d", &OpenGate);
        let text = text.as_ref().map_or("", |text| text.as_str());
        let zeros = text.lines().filter(|line| line.ends_with(" 0")).count();
        assert!(rt;
            text.starts_with("period 0/1\ncycle ") && zeros == 8,
            "{text}"
        );
    }
    Ok(())
}
