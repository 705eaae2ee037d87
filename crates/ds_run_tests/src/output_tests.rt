//! What is left on an output where a write fails, and the lines of a window of vectors.
use ds_app::desync_main;
use ds_base::Row3;
use ds_clocked::{ClockedNetlist, SimFault, simulate_from};
use ds_outside::{MemoryFiles, MemorySink, OpenGate};
use ds_stage::{Stop, read_netlist, read_rows};
use ds_trial::{TOGGLE, files};
use std::alloc::Global;
use std::test::Fail;

// The sink takes six bytes a call, and its second call fails.
#[test]
fn a_failed_write_leaves_a_first_part(rt: HostRuntime) -> Result<(), Fail> {
    let alloc = rt.alloc();
    let mut files = files(alloc, &[("n", TOGGLE), ("v", "1\n1\n0\n1\n")])?;
    let mut out = MemorySink::with_room(alloc, 100)?;
    let mut err = MemorySink::with_room(alloc, 100)?;
    out.at_most(6);
    assert!(rt; out.fail_at(1).is_ok());
    let words = ["desync", "run", "n", "v"];
    let answer = desync_main(&rt, &words, &mut files, &mut out, &mut err, &OpenGate);
    assert_eq!(rt; answer, 5);
    assert!(rt; out.bytes().len() >= 1 && out.bytes().len() <= 6);
    assert!(rt; b"0 0 0\n".starts_with(out.bytes()));
    assert_eq!(rt; err.bytes(), b"desync: cannot write\n".as_slice());
    Ok(())
}

// The lines of the toggle from turn 8 on, its register begun at 0.
fn window(
    alloc: Global,
    files: &mut MemoryFiles,
    out: &mut MemorySink,
) -> Result<Result<Row3, SimFault>, Stop> {
    let netlist = read_netlist(alloc, files, "n")?;
    let vectors = read_rows(alloc, files, "v", &netlist)?;
    let start = Row3::with_len(alloc, netlist.design().registers().len())?;
    let _turns = vectors.count();
    let mut clocked = ClockedNetlist::new(&netlist);
    Ok(simulate_from(alloc, &mut clocked, &start, 8, &vectors, out))
}

#[test]
fn a_window_goes_on_from_a_row(rt: HostRuntime) -> Result<(), Fail> {
    let alloc = rt.alloc();
    let mut files = files(alloc, &[("n", TOGGLE), ("v", "1\n1\n")])?;
    let mut out = MemorySink::with_room(alloc, 100)?;
    let last = window(alloc, &mut files, &mut out);
    assert!(rt; last.is_ok_and(|last| last.is_ok_and(|last| last.len() == 1)));
    assert_eq!(rt; out.bytes(), b"8 0 0\n9 1 1\n".as_slice());
    Ok(())
}

// The sink takes six bytes a call, and its second call fails.
#[test]
fn a_failed_write_ends_a_window(rt: HostRuntime) -> Result<(), Fail> {
    let alloc = rt.alloc();
    let mut files = files(alloc, &[("n", TOGGLE), ("v", "1\n1\n")])?;
    let mut out = MemorySink::with_room(alloc, 100)?;
    out.at_most(6);
    assert!(rt; out.fail_at(1).is_ok());
    let last = window(alloc, &mut files, &mut out);
    assert!(rt; matches!(last, Ok(Err(SimFault::Write))));
    assert!(rt; out.bytes().len() >= 1 && out.bytes().len() <= 6);
    assert!(rt; b"8 0 0\n".starts_with(out.bytes()));
    Ok(())
}
