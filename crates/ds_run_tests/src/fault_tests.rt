//! The lines of the faults of files.
use ds_trial::{Wanted, gives, play};
use std::alloc::{AllocError, Global};
use std::test::Fail;

// Netlists that are no text of a netlist, and vectors that are none of vectors, each with the line
// of its fault.
const LINES: &str = "%v
%n < and
00 0
.end
%$ desync run n v
%= 1
n:6: mixed rows
%n < and
0 1
.end
%$ desync run n v
%= 1
n:6: bad row
%n < and
.gate x
.end
%$ desync run n v
%= 1
n:6: unsupported command .gate
%n < and
.latch a z re
.end
%$ desync run n v
%= 1
n:6: bad initial value
%n < and
.latch a z xx c
.end
%$ desync run n v
%= 1
n:6: bad words
%n
.model m
.inputs a b
.outputs y
11 1
.end
%$ desync run n v
%= 1
n:4: row without table
%n
.model l
.inputs a
.outputs y
.latch a y ah c 0
.end
%$ desync run n v
%= 1
n:4: level latch
%n
%$ desync run n v
%= 1
n:1: no model
%v
1
0
10
%$ desync run toggle v
%= 1
v:3: bad width
%v
1
2
%$ desync run toggle v
%= 1
v:2: bad bit
";

#[test]
fn faults_of_lines_are_named(rt: HostRuntime) -> Result<(), Fail> {
    play(&rt, LINES, 10)
}

// Models that have no copies, and the line of their fault.
const MODELS: &str = "%v
%n
.model loop
.inputs a
.outputs y
.subckt loop a=a y=y
.end
%$ desync run n v
%= 1
n:4: recursive models: loop
%n
.model loop
.inputs a
.outputs y
.subckt nix a=a
.end
%$ desync run n v
%= 1
n:4: unknown model nix
%n < copies
.subckt inv i=a o=t
.subckt inv i=t o=y
=>
.subckt inv i=a o=t z=a
%$ desync run n v
%= 1
n:4: unknown formal z
%n
.model p
.subckt q
.end
.model q
.subckt p
.end
%$ desync run n v
%= 1
n:5: recursive models: p q
%n
.model m
.end
.model m
.end
%$ desync run n v
%= 1
n:3: repeated model m
";

#[test]
fn faults_of_copies_are_named(rt: HostRuntime) -> Result<(), Fail> {
    play(&rt, MODELS, 5)
}

// Models `m0` to that of a number, each of which uses the next one twice, and the last one none.
fn doubled(alloc: Global, last: u32) -> Result<String, AllocError> {
    let mut text = String::new(alloc);
    for model in 0..last {
        text.push_str(format!(in alloc; ".model m{model}\n.inputs a\n")?.as_str())?;
        let uses = format!(in alloc; ".subckt m{} a=a\n", u64::from(model) + 1)?;
        text.push_str(uses.as_str())?;
        text.push_str(uses.as_str())?;
        text.push_str(".end\n")?;
    }
    text.push_str(format!(in alloc; ".model m{last}\n.inputs a\n.end\n")?.as_str())?;
    Ok(text)
}

// Sixteen models below the main one are 131,070 copies: the left half of these is 65,535, the
// second copy of `m1` is the last that may be, and its first use stands on line 8. Fifteen are
// 65,534.
#[test]
fn copies_are_counted_to_their_limit(rt: HostRuntime) -> Result<(), Fail> {
    let many = doubled(rt.alloc(), 16)?;
    let refused = Wanted {
        status: 1,
        text: "n:8: too many copies (limit 65536)\n",
    };
    let files = [("n", many.as_str()), ("v", "")];
    assert!(rt; gives(&rt, &files, "desync run n v", refused)?);
    let most = doubled(rt.alloc(), 15)?;
    let run = Wanted {
        status: 0,
        text: "0 - -\nend -\n",
    };
    let files = [("n", most.as_str()), ("v", "1\n")];
    assert!(rt; gives(&rt, &files, "desync run n v", run)?);
    Ok(())
}

// Designs that are not accepted, and the line of their fault.
const DESIGNS: &str = "%v
%both
desync run n v
desync clock n v
%$ desync run ring v
%$ desync clock ring v
%= 1
ring: combinational cycle: y z
%n < ring
.names y z
0 1
=>
%$ < both
%= 1
n: undriven net z
%n < shift
.latch a q0 re clk 0
.latch q0 q1 re clk 0
=>
.latch a q0 re c1 0
.latch q0 q1 re c2 0
%$ < both
%= 1
n: several clocks: c1 and c2
%n < toggle
.end
=>
.names e q
1 1
.end
%$ < both
%= 1
n: net q driven twice: table at 8 and latch at 7
%n < toggle
.end
=>
.names clk d2
.end
%$ < both
%= 1
n: clock clk used as data
%n < toggle
.end
=>
.names e clk
.end
%$ < both
%= 1
n: clock clk is driven
%n < toggle
.end
=>
.latch d r fe clk
.end
%$ < both
%= 1
n: mixed edges: q and r
";

#[test]
fn faults_of_designs_are_named(rt: HostRuntime) -> Result<(), Fail> {
    play(&rt, DESIGNS, 14)
}
