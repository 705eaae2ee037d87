//! A netlist that is cut anywhere.
use crate::trial::Trial;
use ds_base::OutOfMemory;
use ds_trial::{TOGGLE, play};
use std::alloc::{AllocError, Global};
use std::test::Fail;
use std::thread::Threads;

// What the text ends with, behind the status of `run`, and what is written then.
const CUTS: &str = "%1 \ntog:1: no model
%1 .model\ntog:1: bad words
%1 .model toggle\nv:1: bad width
%1 .outputs q\ntog: undriven net q
%1 10 1\ntog: undriven net q
%1 .latc\ntog:7: unsupported command .latc
%1 .latch d\ntog:7: bad words
%1 .latch d q\nv:1: bad width
%1 .latch d q re\ntog:7: bad initial value
%0 .latch d q re clk
0 x x
1 x x
2 x x
3 x x
end x
%0 .latch d q re clk 0
0 0 0
1 1 1
2 0 0
3 0 0
end 1
";

// The inputs are columns where no register names a clock.
const NO_OUTPUTS: &str = "%v
11
00
%tog
.model toggle
.inputs clk e
.outputs%$ desync run tog v
%= 0
0 - -
1 - -
end -
";

// The text of a table of cuts.
fn cuts(alloc: Global, table: &str) -> Result<String, AllocError> {
    let mut text = String::from_str(alloc, "%v\n1\n1\n0\n1\n")?;
    for case in table.split('%') {
        if let Some((first, answer)) = case.split_once('\n') {
            push_cut(&mut text, first, answer)?;
        }
    }
    Ok(text)
}

// Appends the toggle up to where it ends, and what is told of it.
fn push_cut(text: &mut String, first: &str, answer: &str) -> Result<(), AllocError> {
    let Some((status, end)) = first.split_once(' ') else {
        return Ok(());
    };
    let Some((before, _after)) = TOGGLE.split_once(end) else {
        return Ok(());
    };
    for piece in [
        "%tog\n",
        before,
        end,
        "%$ desync run tog v\n%= ",
        status,
        "\n",
        answer,
    ] {
        text.push_str(piece)?;
    }
    Ok(())
}

// Whether a run was refused with one line, which names a file.
fn is_refused(trial: &Trial) -> bool {
    let Ok(line) = str::from_utf8(trial.err.bytes()) else {
        return false;
    };
    let named = line.starts_with("tog:") || line == "v:1: bad width\n";
    named && line.ends_with('\n') && line.lines().count() == 1 && trial.out.bytes().is_empty()
}

// The trace, where the first so many bytes of the toggle have one: behind the first input, which no
// latch names as its clock yet; behind the clock's name; and behind the initial value, but for an
// open `.end`.
fn trace(bytes: usize) -> Option<&'static str> {
    match bytes {
        23..=26 => Some("0 - -\n1 - -\n2 - -\n3 - -\nend -\n"),
        79 | 80 => Some("0 x x\n1 x x\n2 x x\n3 x x\nend x\n"),
        81 | 82 | 86 | 87 => Some("0 0 0\n1 1 1\n2 0 0\n3 0 0\nend 1\n"),
        _ => None,
    }
}

// Whether the first so many bytes of the toggle are run, where they have a trace, or else refused.
fn is_answered<R: AllocGlobal + Threads + Sync>(rt: &R, bytes: usize) -> Result<bool, OutOfMemory> {
    let Some(cut) = TOGGLE.get(..bytes) else {
        return Ok(false);
    };
    let mut trial = Trial::new(rt.alloc(), &[("tog", cut), ("v", "1\n1\n0\n1\n")])?;
    let status = trial.take(rt, "desync run tog v")?;
    Ok(match trace(bytes) {
        Some(text) => status == 0 && trial.has_written(text.as_bytes()),
        None => status == 1 && is_refused(&trial),
    })
}

#[test]
fn a_cut_netlist_is_refused_or_run(rt: HostRuntime) -> Result<(), Fail> {
    play(&rt, cuts(rt.alloc(), CUTS)?.as_str(), 11)?;
    play(&rt, NO_OUTPUTS, 1)?;
    for bytes in 0..88 {
        assert!(rt; is_answered(&rt, bytes)?, "{bytes}");
    }
    Ok(())
}
