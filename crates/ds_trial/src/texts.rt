//! Netlists, graphs and other texts that several tests use.

/// A register that toggles where its input is 1.
pub const TOGGLE: &str = ".model toggle\n.inputs clk e\n.outputs q\n.names e q d\n01 1\n10 1\n\
     .latch d q re clk 0\n.end\n";

/// The controller graph of the toggle.
pub const GRAPH: &str = ".model toggle
.outputs IN OUT M0 S0
.graph
IN+ IN- M0+
IN- IN+
OUT+ OUT-
OUT- OUT+ S0+
M0+ M0- S0+
M0- IN+ M0+ S0+
S0+ OUT+ M0+ S0-
S0- M0+ S0+
.marking { <IN-,IN+> <OUT-,OUT+> <M0-,IN+> <M0-,M0+> <S0+,OUT+> <S0+,M0+> <S0-,M0+> <S0-,S0+> }
.end
";

/// The expansion of the toggle's controller graph. Data edges are numbered by producer, and then by
/// consumer.
pub const EXPANSION: &str = ".model toggle
.outputs IN OUT M0 S0
.internal r0 a0 r1 a1 r2 a2 r3 a3
.graph
IN+ IN- r0+
IN- IN+
OUT+ OUT-
OUT- OUT+ a2+
M0+ M0- r1+
M0- M0+ a0+ a3+
S0+ S0- r2+ r3+
S0- S0+ a1+
r0+ M0+
r0- a0-
a0+ IN+ r0-
a0- r0+ a0+
r1+ S0+
r1- a1-
a1+ M0+ r1-
a1- r1+ a1+
r2+ OUT+
r2- a2-
a2+ S0+ r2-
a2- r2+ a2+
r3+ M0+
r3- a3-
a3+ S0+ r3-
a3- r3+ a3+
.marking { <IN-,IN+> <OUT-,OUT+> <M0-,M0+> <S0-,S0+> <a0+,IN+> <a0-,r0+> <a0-,a0+> \
    <a1+,M0+> <a1-,r1+> <a1-,a1+> <r2+,OUT+> <a2-,a2+> <r3+,M0+> <a3-,a3+> }
.end
";

/// What `accept` writes of the toggle and its own graph.
pub const RANKS: &str = "accepted\nIN+ 0\nIN- 1\nOUT+ 0\nOUT- 1\nM0+ 1\nM0- 2\nS0+ 3\nS0- 4\n";

/// Two tables in a ring.
pub const RING: &str =
    ".model ring\n.inputs a\n.outputs y\n.names a z y\n11 1\n.names y z\n0 1\n.end\n";

/// Two registers, the second behind the first.
pub const SHIFT: &str =
    ".model shift\n.inputs a\n.outputs q1\n.latch a q0 re clk 0\n.latch q0 q1 re clk 0\n.end\n";

/// Further files of scripts:
///
/// - `wire`, `and`, `levels`: tables, the last two against the order of the file;
/// - `copy`, `copies`: a register in a copy, and two copies of a table;
/// - of the toggle: `four` vectors, the `trace` for them, the log of one `turn`, the ranks with one
///   event more before its slave rises (`late`), and a log up to where its slave may rise
///   (`begun`);
/// - `delays` of its own graph, and the `period` with them;
/// - a graph of the user's for it with a dummy and two arcs with the same ends, its delays and its
///   period (`dummied`);
/// - the same graph and delays without an arc from IN+ to IN-, with an event f without arcs, and
///   with a cycle that no node waits for, whose times pass 32 bits (`beside`).
pub const FURTHER: &str = "%wire
.model w
.inputs a
.outputs y
.names a y
1 1
.end
%and
.model m
.inputs a b
.outputs y
.names a b y
11 1
%levels
.model lv
.inputs a b
.outputs y
.names t a y
1- 1
.names a b t
11 1
.end
%copy
.model top
.outputs y
.subckt t o=y
.end
.model t
.outputs o
.names q d
0 1
.names q o
1 1
.latch d q 0
.end
%copies
.model top
.inputs a
.outputs y
.subckt inv i=a o=t
.subckt inv i=t o=y
.end
.model inv
.inputs i
.outputs o
.names i o
0 1
.end
%four
1
1
0
1
%trace
0 0 0
1 1 1
2 0 0
3 0 0
end 1
%turn
OUT+ 1
IN+ 1
M0+ 1
OUT- 1
M0- 1
S0+ 1
S0- 1
IN- 1
%late
accepted
IN+ 0
IN- 1
OUT+ 0
OUT- 1
M0+ 1
M0- 2
S0+ 4
S0- 5
%begun
IN+ 1
M0+ 1
M0- 1
OUT+ 1
OUT- 1
%delays
M0+ S0+ 3
S0+ M0+ 4
M0+ M0- 2
%period
period 7/1
cycle M0+ S0+
potential IN+ 0
potential IN- 0
potential OUT+ 0
potential OUT- 0
potential M0+ 0
potential M0- 2
potential S0+ 3
potential S0- 3
%dummied
.model toggle
.outputs IN OUT M0 S0
.dummy e
.graph
IN+ IN- M0+
IN- IN+
OUT+ OUT-
OUT- OUT+ S0+
M0+ M0- e
e S0+
M0- IN+ M0+ S0+
S0+ OUT+ M0+ S0- p
p M0+
S0- M0+ S0+
.marking { <IN-,IN+> <OUT-,OUT+> <M0-,IN+> <M0-,M0+> <S0+,OUT+> <S0+,M0+> \\
    p=3 <S0-,M0+> <S0-,S0+> }
.end
%dummied_delays
M0+ e 2
e S0+ 1
S0+ M0+ 4
%dummied_period
period 7/1
cycle M0+ e S0+
potential IN+ 0
potential IN- 0
potential OUT+ 0
potential OUT- 0
potential M0+ 0
potential M0- 0
potential S0+ 3
potential S0- 3
potential e 2
%beside < dummied
.dummy e
.graph
IN+ IN- M0+
=>
.dummy e w f a b
.graph
IN+ w M0+
w IN-
%beside < beside
S0- M0+ S0+
=>
S0- M0+ S0+
a b
b a
%beside < beside
<S0-,S0+> }
=>
<S0-,S0+> <b,a> }
%beside_delays < dummied_delays
IN+ w 5
w IN- 6
a b 4294967295
b a 4294967295
";
