//! Two turns on three nodes, on one thread and on two.
ghost use Rattle.std.specs.Prelude.{◌≡◌, IsTrue};
ghost use Rattle.ds_table_tests.specs.Trio.{trio, IsTrioStile, IsIdle, IsFresh, HasMissed};

use crate::hand::{Hand, fires, set_up, shut};
use crate::trio::{Trio, begin, table_run};
use ds_base::{LatchId, OutOfMemory};
use ds_fabric::Fabric;
use ds_rule::TableRun;
use ds_runner::Turnstile;
use std::alloc::Global;
use std::thread;
use std::thread::Threads;

// While the first hand has the pass of node 1, the second misses it.
fn misses(fabric: &Fabric<Trio, Trio>, stile: &Turnstile, one: &mut Hand, two: &mut Hand) -> bool
    requires stile { IsTrioStile fabric.now stile.now }
    requires one { IsIdle fabric.now stile.now one.old.turn one.old.scratch }
    requires two { IsIdle fabric.now stile.now two.old.turn two.old.scratch
        × IsFresh two.old.turn.view }

    ensures one { IsIdle fabric.now stile.now one.new.turn one.new.scratch }
    ensures two { IsIdle fabric.now stile.now two.new.turn two.new.scratch }
    ensures missed { IsTrue result → HasMissed two.new.turn.view 1 }
{
    let node = LatchId::new(1);
    let Some(pass) = stile.take(&mut one.turn, node) else {
        return false;
    };
    let tried = fires(fabric, stile, two, 1, 1);
    stile.give(&mut one.turn, node, pass);
    tried.is_none()
}

// Once the second hand has missed node 1, which is back then, each hand fires a node.
fn misses_and_fires(
    fabric: &Fabric<Trio, Trio>,
    stile: &Turnstile,
    one: &mut Hand,
    two: &mut Hand,
) -> bool
    requires stile { IsTrioStile fabric.now stile.now }
    requires one { IsIdle fabric.now stile.now one.old.turn one.old.scratch }
    requires two { IsIdle fabric.now stile.now two.old.turn two.old.scratch
        × IsFresh two.old.turn.view }

    ensures one { IsIdle fabric.now stile.now one.new.turn one.new.scratch }
    ensures two { IsIdle fabric.now stile.now two.new.turn two.new.scratch }
{
    let missed = misses(fabric, stile, one, two);
    let back = stile.seems_free(LatchId::new(1)) && one.turn.permits() == 1;
    let first = fires(fabric, stile, one, 1, 2) == Some(2);
    let second = fires(fabric, stile, two, 2, 1) == Some(1);
    missed && back && first && second
}

// Whether they do so, and what has fired is there once the turnstile is shut.
fn is_missed(alloc: Global, run: &TableRun<Trio>) -> Result<bool, OutOfMemory>
    requires { run.now ≡ trio }
{
    let (fabric, mut passes) = begin(alloc, run)?;
    let (stile, mut one, mut two) = set_up(alloc, &fabric, &mut passes)?;
    let done = misses_and_fires(&fabric, &stile, &mut one, &mut two);
    let all = shut(&fabric, stile, one, two, &mut passes);
    Ok(done && all == (0, 2, 1))
}

#[test]
fn a_node_that_is_out_is_missed(rt: HostRuntime) {
    let Ok(run) = table_run(rt.alloc()) else {
        panic!(rt; "memory");
    };
    assert!(rt; matches!(is_missed(rt.alloc(), &run), Ok(true)));
}

// Two threads, each with a hand of its own: one fires node 1 twice, the other node 2 once.
fn both_at_once(
    rt: &impl Threads,
    fabric: &Fabric<Trio, Trio>,
    stile: &Turnstile,
    one: &mut Hand,
    two: &mut Hand,
) -> (Option<u64>, Option<u64>)
    requires stile { IsTrioStile fabric.now stile.now }
    requires one { IsIdle fabric.now stile.now one.old.turn one.old.scratch }
    requires two { IsIdle fabric.now stile.now two.old.turn two.old.scratch }
    ensures one { IsIdle fabric.now stile.now one.new.turn one.new.scratch }
    ensures two { IsIdle fabric.now stile.now two.new.turn two.new.scratch }
{
    thread::join_mut(
        rt,
        &mut || fires(fabric, stile, one, 1, 2),
        &mut || fires(fabric, stile, two, 2, 1),
    )
}

// Whether both threads fire their nodes, and what has fired is there once the turnstile is shut.
fn are_fired<R: AllocGlobal + Threads>(rt: &R, run: &TableRun<Trio>) -> Result<bool, OutOfMemory>
    requires { run.now ≡ trio }
{
    let (fabric, mut passes) = begin(rt.alloc(), run)?;
    let (stile, mut one, mut two) = set_up(rt.alloc(), &fabric, &mut passes)?;
    let both = both_at_once(rt, &fabric, &stile, &mut one, &mut two);
    let all = shut(&fabric, stile, one, two, &mut passes);
    Ok(both == (Some(2), Some(1)) && all == (0, 2, 1))
}

#[test]
fn two_threads_fire_their_nodes(rt: HostRuntime) {
    let Ok(run) = table_run(rt.alloc()) else {
        panic!(rt; "memory");
    };
    for _ in 0..100u32 {
        assert!(rt; matches!(are_fired(&rt, &run), Ok(true)));
    }
}
