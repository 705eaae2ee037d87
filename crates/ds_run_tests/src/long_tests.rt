//! Netlists that are deep, and ones that are long.
use ds_base::OutOfMemory;
use ds_trial::{Wanted, gives};
use itoa::Buffer;
use std::alloc::{AllocError, Global};
use std::test::Fail;
use std::thread::Threads;

// What stands before and behind two numbers, the second of which is one more.
#[derive(Clone, Copy)]
struct StepText<'t> {
    before: &'t str,
    between: &'t str,
    behind: &'t str,
}

// Appends so many steps, each with its number, from 0.
fn push_steps(text: &mut String, step: StepText<'_>, count: u64) -> Result<(), AllocError> {
    let mut here = Buffer::new();
    let mut next = Buffer::new();
    for i in 0..count {
        text.push_str(step.before)?;
        text.push_str(here.format(i))?;
        text.push_str(step.between)?;
        text.push_str(next.format(i.saturating_add(1)))?;
        text.push_str(step.behind)?;
    }
    Ok(())
}

// Appends a text so many times.
fn push_times(text: &mut String, piece: &str, count: usize) -> Result<(), AllocError> {
    for _ in 0..count {
        text.push_str(piece)?;
    }
    Ok(())
}

// 20,000 models, each of which uses the next one.
fn models(alloc: Global) -> Result<String, AllocError> {
    let mut text = String::new(alloc);
    let step = StepText {
        before: ".model m",
        between: "\n.inputs a\n.subckt m",
        behind: " a=a\n.end\n",
    };
    push_steps(&mut text, step, 19_999)?;
    text.push_str(".model m19999\n.inputs a\n.end\n")?;
    Ok(text)
}

// 60,000 tables, each of which reads the one before.
fn tables(alloc: Global) -> Result<String, AllocError> {
    let mut text = String::from_str(alloc, ".model chain\n.inputs t0\n.outputs t60000\n")?;
    let step = StepText {
        before: ".names t",
        between: " t",
        behind: "\n0 1\n",
    };
    push_steps(&mut text, step, 60_000)?;
    Ok(text)
}

// A table that asks of a net as often whether it is 1.
fn wide(alloc: Global, inputs: usize) -> Result<String, AllocError> {
    let mut text = String::from_str(alloc, ".model m\n.names")?;
    push_times(&mut text, " a", inputs)?;
    text.push_str(" y\n")?;
    push_times(&mut text, "1", inputs)?;
    text.push_str(" 1\n.inputs a\n.outputs y\n.end\n")?;
    Ok(text)
}

// Appends a byte so many times, a thousand at once.
fn push_bytes(
    alloc: Global,
    text: &mut String,
    byte: &str,
    count: usize,
) -> Result<(), AllocError> {
    let mut thousand = String::new(alloc);
    push_times(&mut thousand, byte, 1_000)?;
    push_times(text, thousand.as_str(), count / 1_000)?;
    push_times(text, byte, count % 1_000)
}

// A model, and a comment of so many bytes behind it.
fn long(alloc: Global, comment: usize) -> Result<String, AllocError> {
    let mut text = String::from_str(alloc, ".model m\n")?;
    push_bytes(alloc, &mut text, "#", comment)?;
    Ok(text)
}

// A line of 16,000,000 bytes: one name a hundred thousand times, and one that is long.
fn long_line(alloc: Global) -> Result<String, AllocError> {
    let mut text = String::from_str(alloc, ".model m\n.inputs")?;
    push_times(&mut text, " a", 100_000)?;
    text.push_str(" ")?;
    push_bytes(alloc, &mut text, "b", 15_799_992)?;
    Ok(text)
}

// Whether `check` answers this of a netlist.
fn checks<R: AllocGlobal + Threads + Sync>(
    rt: &R,
    net: Result<String, AllocError>,
    wanted: Wanted<'_>,
) -> Result<bool, OutOfMemory> {
    let net = net?;
    gives(rt, &[("n", net.as_str())], "desync check n", wanted)
}

// A report that is written.
fn report(text: &str) -> Wanted<'_> {
    Wanted { status: 0, text }
}

// The line of a fault.
fn fault(text: &str) -> Wanted<'_> {
    Wanted { status: 1, text }
}

#[test]
fn deep_and_long_input_is_taken(rt: HostRuntime) -> Result<(), Fail> {
    let alloc = rt.alloc();
    let wanted = report("nets 1\ntables 0\nregisters 0\nlevels 0\n");
    assert!(rt; checks(&rt, models(alloc), wanted)?);
    let wanted = report("nets 60001\ntables 60000\nregisters 0\nlevels 60000\n");
    assert!(rt; checks(&rt, tables(alloc), wanted)?);
    let wanted = report("nets 2\ntables 1\nregisters 0\nlevels 1\n");
    assert!(rt; checks(&rt, wide(alloc, 1_024), wanted)?);
    let wanted = fault("n:2: too many table inputs (limit 1024)\n");
    assert!(rt; checks(&rt, wide(alloc, 1_025), wanted)?);
    let wanted = report("nets 0\ntables 0\nregisters 0\nlevels 0\n");
    assert!(rt; checks(&rt, long(alloc, 16_777_207), wanted)?);
    let wanted = fault("n: too long (limit 16777216)\n");
    assert!(rt; checks(&rt, long(alloc, 16_777_208), wanted)?);
    let wanted = report("nets 2\ntables 0\nregisters 0\nlevels 0\n");
    assert!(rt; checks(&rt, long_line(alloc), wanted)?);
    Ok(())
}
