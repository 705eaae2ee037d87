//! Clocked runs of a pipeline in windows of many lengths, against the same worked out turn by turn.
use ds_base::Value;
use ds_outside::OpenGate;
use ds_trial::printed;
use itoa::Buffer;
use std::alloc::{AllocError, AllocGlobal, Global};
use std::test::Fail;
use std::thread::Threads;

// Two registers behind tables of two inputs, and outputs of a table of four, of one of seven and
// of one without inputs.
const PIPELINE: &str = ".model pipeline\n.inputs a b\n.outputs u v w\n.names a b d\n10 1\n01 1\n\
    .latch d p 0\n.names p a e\n10 1\n01 1\n.latch e q 1\n.names a b p q u\n1111 0\n\
    .names a b a b a q q v\n11-1111 1\n.names w\n1\n";

// Tables without inputs. Beside them few tables of the pipeline are large.
const TWELVE: &str = ".names k0\n.names k1\n.names k2\n.names k3\n.names k4\n.names k5\n\
    .names k6\n.names k7\n.names k8\n.names k9\n.names k10\n.names k11\n";

// The turn whose vector has an unknown value, where one does.
type Unknown = Option<u64>;

// The values of the registers.
#[derive(Clone, Copy)]
struct State {
    p: Value,
    q: Value,
}

// The first input in a turn.
fn first(turn: u64, unknown: Unknown) -> Value {
    if unknown == Some(turn) {
        Value::Unknown
    } else {
        mixed(turn ^ (turn >> 1))
    }
}

// The second one.
fn second(turn: u64) -> Value {
    mixed(turn ^ (turn >> 3))
}

// One for a third of the numbers.
fn mixed(number: u64) -> Value {
    if number % 3 == 1 {
        Value::One
    } else {
        Value::Zero
    }
}

// One where one of them is one, and not both.
fn differ(one: Value, other: Value) -> Value {
    one.and(other.not()).or(one.not().and(other))
}

// A value as it is printed.
fn letter(value: Value) -> &'static str {
    match value {
        Value::Zero => "0",
        Value::One => "1",
        Value::Unknown => "x",
    }
}

// Appends values.
fn push(text: &mut String, values: &[Value]) -> Result<(), AllocError> {
    for value in values {
        text.push_str(letter(*value))?;
    }
    Ok(())
}

// So many vectors.
fn vectors(alloc: Global, turns: u64, unknown: Unknown) -> Result<String, AllocError> {
    let mut text = String::new(alloc);
    for turn in 0..turns {
        push(&mut text, &[first(turn, unknown), second(turn)])?;
        text.push_str("\n")?;
    }
    Ok(text)
}

// Appends the line of a turn, and gives the registers behind it.
fn push_turn(
    text: &mut String,
    turn: u64,
    state: State,
    unknown: Unknown,
) -> Result<State, AllocError> {
    let (a, b) = (first(turn, unknown), second(turn));
    let State { p, q } = state;
    let mut number = Buffer::new();
    text.push_str(number.format(turn))?;
    text.push_str(" ")?;
    let u = a.and(b).and(p.and(q)).not();
    push(text, &[u, a.and(b).and(q), Value::One])?;
    text.push_str(" ")?;
    push(text, &[p, q])?;
    text.push_str("\n")?;
    Ok(State {
        p: differ(a, b),
        q: differ(p, a),
    })
}

// The trace of so many turns.
fn trace(alloc: Global, turns: u64, unknown: Unknown) -> Result<String, AllocError> {
    let mut text = String::new(alloc);
    let mut state = State {
        p: Value::Zero,
        q: Value::One,
    };
    for turn in 0..turns {
        state = push_turn(&mut text, turn, state, unknown)?;
    }
    text.push_str("end ")?;
    push(&mut text, &[state.p, state.q])?;
    text.push_str("\n")?;
    Ok(text)
}

// The pipeline with these tables beside it.
fn netlist(alloc: Global, tables: &str) -> Result<String, AllocError> {
    let mut text = String::from_str(alloc, PIPELINE)?;
    text.push_str(tables)?;
    text.push_str(".end\n")?;
    Ok(text)
}

// Whether the clocked run prints the trace, with these tables beside the pipeline.
fn prints<R: AllocGlobal + Threads + Sync>(
    rt: &R,
    tables: &str,
    turns: u64,
    unknown: Unknown,
) -> Result<bool, AllocError> {
    let netlist = netlist(rt.alloc(), tables)?;
    let vectors = vectors(rt.alloc(), turns, unknown)?;
    let wanted = trace(rt.alloc(), turns, unknown)?;
    let files = [("n", netlist.as_str()), ("v", vectors.as_str())];
    match printed(rt, &files, "desync clock n v", &OpenGate) {
        Some(text) => Ok(text.as_str() == wanted.as_str()),
        None => Ok(false),
    }
}

// The same with twelve tables, and an unknown value in no turn, in the first one, and in the last.
fn prints_all<R: AllocGlobal + Threads + Sync>(rt: &R, turns: u64) -> Result<bool, AllocError> {
    for unknown in [None, Some(0), Some(turns.saturating_sub(1))] {
        if !prints(rt, TWELVE, turns, unknown)? {
            return Ok(false);
        }
    }
    Ok(true)
}

// One table in five is large.
#[test]
fn windows_with_large_tables_are_written(rt: HostRuntime) -> Result<(), Fail> {
    for turns in [1_024, 4_097] {
        assert!(rt; prints(&rt, "", turns, None)?);
    }
    Ok(())
}

#[test]
fn windows_of_all_lengths_are_written(rt: HostRuntime) -> Result<(), Fail> {
    for turns in [
        1, 63, 64, 65, 1_023, 1_024, 1_025, 1_087, 4_095, 4_096, 4_097,
    ] {
        assert!(rt; prints_all(&rt, turns)?);
    }
    Ok(())
}
