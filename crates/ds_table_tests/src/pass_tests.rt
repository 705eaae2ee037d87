//! Passes that are dealt and gathered, on one thread and on two.
ghost use Rattle.std.specs.Prelude.{◌≡◌, ◌<◌, IfSome, OnOk};
ghost use Rattle.ds_table_tests.specs.Toggle.{toggle, HoldsBoth, HoldsMaster, HoldsSlave};

use crate::toggle::{
    Toggle, begin, end, fired, has, master, part, slave, slave_seems_due, step, table_run, unite,
};
use ds_base::{ArcId, LatchId, OutOfMemory};
use ds_fabric::{Fabric, Pass, Record, Step};
use ds_rule::TableRun;
use std::alloc::Global;
use std::thread;
use std::thread::Threads;

// The step lacks tokens on this arc.
fn not_yet(arc: u32, seen: u64) -> Step {
    Step::NotYet {
        arc: ArcId::new(arc),
        seen,
    }
}

// The nodes that two passes hold, and the room that each has.
fn are_apart(fabric: &Fabric<Toggle, Toggle>, pass: &Pass, other: &Pass) -> bool
    requires slave { HoldsSlave fabric.now pass.now }
    requires master { HoldsMaster fabric.now other.now }
{
    let slave = pass.holds(LatchId::new(0)) && !pass.holds(LatchId::new(1));
    let master = !other.holds(LatchId::new(0)) && other.holds(LatchId::new(1));
    slave && master && pass.room() == 2 && other.room() == 1
}

// Wherever the looks begin, also past the last arc, the slave seems due or does not.
fn looks_agree(fabric: &Fabric<Toggle, Toggle>, due: bool) -> bool
    requires { 0 < fabric.now.run.nodes }
{
    let (first, second) = (slave_seems_due(fabric, 0), slave_seems_due(fabric, 1));
    first == due && second == due && slave_seems_due(fabric, 9) == due
}

// The slave opens once the master closed.
fn waits_for_the_master(fabric: &Fabric<Toggle, Toggle>, pass: &mut Pass, other: &mut Pass) -> bool
    requires slave { HoldsSlave fabric.now pass.old }
    requires master { HoldsMaster fabric.now other.old }
    ensures slave { HoldsSlave fabric.now pass.new }
    ensures master { HoldsMaster fabric.now other.new }
{
    let opened = master(fabric, other) == fired(2, 1, 0);
    let early = !looks_agree(fabric, false) || slave(fabric, pass) != not_yet(5, 0);
    let closed = master(fabric, other) == fired(3, 1, 1);
    opened && !early && closed && looks_agree(fabric, true)
}

// The master opens again once the slave closed.
fn waits_for_the_slave(fabric: &Fabric<Toggle, Toggle>, pass: &mut Pass, other: &mut Pass) -> bool
    requires slave { HoldsSlave fabric.now pass.old }
    requires master { HoldsMaster fabric.now other.old }
    ensures slave { HoldsSlave fabric.now pass.new }
    ensures master { HoldsMaster fabric.now other.new }
{
    let opened = slave(fabric, pass) == fired(0, 1, 2);
    let early = master(fabric, other) != not_yet(7, 0);
    let closed = slave(fabric, pass) == fired(1, 1, 3);
    let again = master(fabric, other) == fired(2, 2, 4);
    let waits = slave(fabric, pass) == not_yet(5, 1);
    let counts = (pass.fired(LatchId::new(0)), other.fired(LatchId::new(1))) == (2, 3);
    opened && !early && closed && again && waits && counts
}

// What is left is fired by a pass of both.
fn is_completed(fabric: &Fabric<Toggle, Toggle>, pass: &mut Pass) -> bool
    requires { HoldsBoth fabric.now pass.old }
    ensures { HoldsBoth fabric.now pass.new }
{
    let both = pass.holds(LatchId::new(0)) && pass.holds(LatchId::new(1));
    let closed = step(fabric, pass, 1) == fired(3, 2, 5);
    let opened = step(fabric, pass, 0) == fired(0, 2, 6);
    let last = step(fabric, pass, 0) == fired(1, 2, 7);
    let slave = step(fabric, pass, 0) == Step::Done;
    let master = step(fabric, pass, 1) == Step::Done;
    let counts = (pass.fired(LatchId::new(0)), pass.fired(LatchId::new(1))) == (4, 4);
    both && closed && opened && last && slave && master && counts
}

// Whether two passes, which are one again at last, fire as they must.
fn passes_fire(
    alloc: Global,
    fabric: &Fabric<Toggle, Toggle>,
    pass: &mut Pass,
) -> Result<bool, OutOfMemory>
    requires { HoldsBoth fabric.now pass.old }
{
    let mut other = part(alloc, fabric, pass)?;
    let apart = are_apart(fabric, pass, &other);
    let first = waits_for_the_master(fabric, pass, &mut other);
    let second = waits_for_the_slave(fabric, pass, &mut other);
    unite(fabric, pass, other);
    let third = is_completed(fabric, pass);
    Ok(apart && first && second && third)
}

// Whether those of a run do.
fn fires_in_turn(alloc: Global, run: &TableRun<Toggle>) -> Result<bool, OutOfMemory>
    requires { run.now ≡ toggle }
{
    let (fabric, mut pass) = begin(alloc, run)?;
    passes_fire(alloc, &fabric, &mut pass)
}

#[test]
fn two_passes_fire_in_turn(rt: HostRuntime) {
    let Ok(run) = table_run(rt.alloc()) else {
        panic!(rt; "memory");
    };
    assert!(rt; matches!(fires_in_turn(rt.alloc(), &run), Ok(true)));
}

// The master opens and closes.
fn fires_twice(fabric: &Fabric<Toggle, Toggle>, pass: &mut Pass) -> bool
    requires { HoldsMaster fabric.now pass.old }
    ensures { HoldsMaster fabric.now pass.new }
{
    let opened = master(fabric, pass) == fired(2, 1, 0);
    let closed = master(fabric, pass) == fired(3, 1, 1);
    opened && closed
}

// Two threads on one fabric, each with a pass of its own: the master fires twice, and the slave
// tries to open, which it may or may not.
fn both_at_once(
    rt: &impl Threads,
    fabric: &Fabric<Toggle, Toggle>,
    pass: &mut Pass,
    other: &mut Pass,
) -> (bool, Step)
    requires slave { HoldsSlave fabric.now pass.old }
    requires master { HoldsMaster fabric.now other.old }
    ensures slave { HoldsSlave fabric.now pass.new }
    ensures master { HoldsMaster fabric.now other.new }
{
    thread::join_mut(
        rt,
        &mut || fires_twice(fabric, other),
        &mut || slave(fabric, pass),
    )
}

// What is left once the slave has tried to open, which it did if the master had closed by then.
fn goes_on(fabric: &Fabric<Toggle, Toggle>, pass: &mut Pass, tried: Step) -> bool
    requires { HoldsBoth fabric.now pass.old }
    ensures { HoldsBoth fabric.now pass.new }
{
    let opened = if pass.fired(LatchId::new(0)) == 0 {
        step(fabric, pass, 0)
    } else {
        tried
    };
    let closed = step(fabric, pass, 0) == fired(1, 1, 3);
    let again = step(fabric, pass, 1) == fired(2, 2, 4);
    opened == fired(0, 1, 2) && closed && again
}

// Whether two threads, and then one, fire up to the master's second opening.
fn threads_fire<R: AllocGlobal + Threads>(
    rt: &R,
    fabric: &Fabric<Toggle, Toggle>,
    pass: &mut Pass,
) -> Result<bool, OutOfMemory>
    requires { HoldsBoth fabric.now pass.old }
    ensures { OnOk result (HoldsBoth fabric.now pass.new) }
{
    let mut other = part(rt.alloc(), fabric, pass)?;
    let (both, tried) = both_at_once(rt, fabric, pass, &mut other);
    unite(fabric, pass, other);
    let on = goes_on(fabric, pass, tried);
    Ok(both && on)
}

// Whether the same is fired one after another: the slave tries to open before the master has fired,
// so that it needs what the pass that is taken in has fired.
fn slave_comes_first(
    alloc: Global,
    fabric: &Fabric<Toggle, Toggle>,
    pass: &mut Pass,
) -> Result<bool, OutOfMemory>
    requires { HoldsBoth fabric.now pass.old }
    ensures { OnOk result (HoldsBoth fabric.now pass.new) }
{
    let mut other = part(alloc, fabric, pass)?;
    let tried = slave(fabric, pass);
    let both = fires_twice(fabric, &mut other);
    unite(fabric, pass, other);
    let on = goes_on(fabric, pass, tried);
    Ok(matches!(tried, Step::NotYet { .. }) && both && on)
}

// Whether these fire, by two threads or one after another.
fn both_fire<R: AllocGlobal + Threads>(
    rt: &R,
    fabric: &Fabric<Toggle, Toggle>,
    pass: &mut Pass,
    by_threads: bool,
) -> Result<bool, OutOfMemory>
    requires { HoldsBoth fabric.now pass.old }
    ensures { OnOk result (HoldsBoth fabric.now pass.new) }
{
    if by_threads {
        threads_fire(rt, fabric, pass)
    } else {
        slave_comes_first(rt.alloc(), fabric, pass)
    }
}

// The record of these firings; none where memory is lacking or another event fired.
fn record_of<R: AllocGlobal + Threads>(
    rt: &R,
    run: &TableRun<Toggle>,
    by_threads: bool,
) -> Option<Record>
    requires { run.now ≡ toggle }
    ensures { IfSome result (λ r. r.shown.view.run ≡ toggle) }
{
    let Ok((fabric, mut pass)) = begin(rt.alloc(), run) else {
        return None;
    };
    match both_fire(rt, &fabric, &mut pass, by_threads) {
        Ok(true) => Some(end(fabric, pass)),
        _ => None,
    }
}

// Whether such a record has the tickets of both openings.
fn is_read_back<R: AllocGlobal + Threads>(rt: &R, run: &TableRun<Toggle>, by_threads: bool) -> bool
    requires { run.now ≡ toggle }
{
    match record_of(rt, run, by_threads) {
        Some(record) => has(&record, 0, &[2]) && has(&record, 2, &[0, 4]),
        None => false,
    }
}

#[test]
fn read_back(rt: HostRuntime) {
    let Ok(run) = table_run(rt.alloc()) else {
        panic!(rt; "memory");
    };
    assert!(rt; is_read_back(&rt, &run, false));
    for _ in 0..100u32 {
        assert!(rt; is_read_back(&rt, &run, true));
    }
}
