//! Files of groups and their clusters at the limits.
use crate::graph_tests::wide;
use ds_base::OutOfMemory;
use ds_outside::OpenGate;
use ds_trial::{Wanted, chain, gives, printed};
use std::alloc::{AllocError, Global};
use std::test::Fail;
use std::thread::Threads;

// A comment of so many bytes.
fn comment(alloc: Global, bytes: usize) -> Result<String, AllocError> {
    let mut text = String::from_str(alloc, "#")?;
    for _ in 1..bytes {
        text.push_str(".")?;
    }
    Ok(text)
}

#[test]
fn groups_are_too_long_past_their_limit(rt: HostRuntime) -> Result<(), Fail> {
    let net = chain(rt.alloc(), 1)?;
    let text = comment(rt.alloc(), 16_777_217)?;
    let wanted = Wanted {
        status: 1,
        text: "f: too long (limit 16777216)\n",
    };
    let all = [("n", net.as_str()), ("f", text.as_str())];
    assert!(rt; gives(&rt, &all, "desync clusters n --groups f", wanted)?);
    Ok(())
}

// Whether so many registers in a row are one cluster fewer, where the first one has another one in
// its group.
fn is_counted<R: AllocGlobal + Threads + Sync>(
    rt: &R,
    registers: usize,
) -> Result<bool, OutOfMemory> {
    let net = chain(rt.alloc(), registers)?;
    let all = [("n", net.as_str()), ("f", "q0 q7\n")];
    let text = printed(rt, &all, "desync clusters n --groups f", &OpenGate);
    let text = text.as_ref().map_or("", |text| text.as_str());
    let lines = text.lines().count();
    Ok(text.starts_with("q0 q7 # M0 S0\n") && lines == registers.saturating_sub(1))
}

// Groups and the rest are counted together.
#[test]
fn clusters_are_counted_to_their_limit(rt: HostRuntime) -> Result<(), Fail> {
    assert!(rt; is_counted(&rt, 4_097)?);
    let net = chain(rt.alloc(), 4_098)?;
    let wanted = Wanted {
        status: 1,
        text: "n: too many clusters (limit 4096)\n",
    };
    let all = [("n", net.as_str()), ("f", "q0 q7\n")];
    assert!(rt; gives(&rt, &all, "desync clusters n --groups f", wanted)?);
    Ok(())
}

// Required orders are not counted: the same netlist has no controller graph.
#[test]
fn clusters_are_told_where_there_are_too_many_orders(rt: HostRuntime) -> Result<(), Fail> {
    let net = wide(rt.alloc(), 723)?;
    let all = [("n", net.as_str()), ("f", "q0\n")];
    let text = printed(&rt, &all, "desync clusters n --groups f", &OpenGate);
    let lines = text.map_or(0, |text| text.as_str().lines().count());
    assert!(rt; lines == 723, "{lines}");
    let wanted = Wanted {
        status: 1,
        text: "n: too many arcs (limit 1048576)\n",
    };
    assert!(rt; gives(&rt, &all, "desync graph n --groups f", wanted)?);
    Ok(())
}
