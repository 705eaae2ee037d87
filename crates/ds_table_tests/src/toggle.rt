//! A register that turns over each turn, on which the tests stand.
ghost use Rattle.std.specs.Prelude.{◌≡◌, ◌<◌, ℕ, IfOk, OnOk, false};
ghost use Rattle.ds_table_tests.specs.Toggle.{arc, edge, turned, toggle, one_net};
ghost use Rattle.ds_table_tests.specs.Toggle.{HoldsBoth, HoldsSlave, HoldsMaster};

use ds_base::{ArcId, EventId, LatchId, OutOfMemory, Scratch};
use ds_fabric::{Compute, Fabric, Pass, Record, Step};
use ds_marked::Arc;
use ds_rule::{DataEdge, RunValues, Sizes, TableRun};
use std::alloc::Global;

/// Node 0 is the slave, node 1 the master.
#[derive(Drop)]
pub struct Toggle;

impl RunValues for Toggle {
    ghost rows = { λ _. turned };
}

impl Compute for Toggle {
    ghost run = { λ _. toggle };

    ghost memory = { λ _. one_net };

    ghost has_learnt = { λ _ _ _ _. false };

    fn scratch(&self, alloc: Global) -> Result<Scratch, OutOfMemory> {
        Scratch::of(alloc, 1, 0)
    }

    fn cost(&self, node: LatchId) -> u64 {
        1
    }

    fn first(&self, node: LatchId, i: usize) -> u64 {
        0
    }

    fn has_learnt(&self, producer: LatchId, turn: u64, scratch: &Scratch) -> bool {
        false
    }

    fn compute(
        &self,
        node: LatchId,
        turn: u64,
        from: &[u64],
        scratch: &mut Scratch,
        into: &mut Vec<u64>,
    ) {
        into.push_reserved(turn % 2);
    }
}

fn new_arc(source: u32, target: u32, tokens: u8) -> Arc
    ensures { result ≡ arc source target tokens }
{
    Arc {
        source: EventId::new(source),
        target: EventId::new(target),
        tokens,
    }
}

fn new_edge(producer: u32, consumer: u32, tokens: u8) -> DataEdge
    ensures { result ≡ edge producer consumer tokens }
{
    DataEdge {
        producer: LatchId::new(producer),
        consumer: LatchId::new(consumer),
        tokens,
    }
}

/// What the run is of.
pub fn table_run(alloc: Global) -> Result<TableRun<Toggle>, OutOfMemory>
    ensures { IfOk result (λ l. l ≡ toggle) }
{
    let arcs = [
        new_arc(0, 1, 0),
        new_arc(1, 0, 1),
        new_arc(2, 3, 0),
        new_arc(3, 2, 1),
        new_arc(0, 2, 1),
        new_arc(3, 0, 0),
        new_arc(2, 0, 0),
        new_arc(1, 2, 1),
    ];
    let arcs = Vec::from_array(alloc, arcs)?;
    let edges = Vec::from_array(alloc, [new_edge(1, 0, 0), new_edge(0, 1, 1)])?;
    let lengths = Vec::from_array(alloc, [1, 1])?;
    let sizes = Sizes {
        nodes: 2,
        design_nodes: 2,
        limit: 2,
        slack: 0,
    };
    Ok(TableRun::of(sizes, arcs, edges, lengths, Toggle))
}

/// The table in which nothing has fired, and the pass of both nodes.
pub fn begin(
    alloc: Global,
    run: &TableRun<Toggle>,
) -> Result<(Fabric<'_, Toggle, Toggle>, Pass), OutOfMemory>
    requires { run.now ≡ toggle }
    ensures { IfOk result (λ r. HoldsBoth r.0 r.1) }
{
    Fabric::build(alloc, run, &Toggle)
}

/// The master goes to a pass of its own; the slave stays.
pub fn part(
    alloc: Global,
    fabric: &Fabric<Toggle, Toggle>,
    pass: &mut Pass,
) -> Result<Pass, OutOfMemory>
    requires { HoldsBoth fabric.now pass.old }
    ensures master { IfOk result (HoldsMaster fabric.now) }
    ensures slave { OnOk result (HoldsSlave fabric.now pass.new) }
{
    fabric.deal(alloc, pass, LatchId::new(1), 1)
}

/// The pass of the slave takes in the one of the master.
pub fn unite(fabric: &Fabric<Toggle, Toggle>, pass: &mut Pass, other: Pass)
    requires slave { HoldsSlave fabric.now pass.old }
    requires master { HoldsMaster fabric.now other }
    ensures { HoldsBoth fabric.now pass.new }
{
    fabric.gather(pass, other);
}

/// A step of the slave.
pub fn slave(fabric: &Fabric<Toggle, Toggle>, pass: &mut Pass) -> Step
    requires { HoldsSlave fabric.now pass.old }
    ensures { HoldsSlave fabric.now pass.new }
{
    fabric.step(pass, LatchId::new(0))
}

/// A step of the master.
pub fn master(fabric: &Fabric<Toggle, Toggle>, pass: &mut Pass) -> Step
    requires { HoldsMaster fabric.now pass.old }
    ensures { HoldsMaster fabric.now pass.new }
{
    fabric.step(pass, LatchId::new(1))
}

/// A step of one of both.
pub fn step(fabric: &Fabric<Toggle, Toggle>, pass: &mut Pass, node: u32) -> Step
    requires both { HoldsBoth fabric.now pass.old }
    requires node { node < 2 }
    ensures { HoldsBoth fabric.now pass.new }
{
    fabric.step(pass, LatchId::new(node))
}

/// The next event of the slave seems due, by looks that begin at this place.
pub fn slave_seems_due(fabric: &Fabric<Toggle, Toggle>, first: usize) -> bool
    requires { 0 < fabric.now.run.nodes }
{
    fabric.seems_lacking(LatchId::new(0), first).is_none()
}

/// The end of the run.
pub fn end(fabric: Fabric<'_, Toggle, Toggle>, pass: Pass) -> Record
    requires { HoldsBoth fabric pass }
    ensures { result.shown.view.run ≡ toggle }
{
    fabric.finish(pass)
}

/// The event fired, for the turn, with the ticket.
pub fn fired(event: u32, turn: u64, ticket: u64) -> Step {
    Step::Fired {
        event: EventId::new(event),
        turn,
        ticket,
    }
}

/// The event has these tickets, and as many firings.
pub fn has(from: &Record, event: u32, tickets: &[u64]) -> bool
    requires run { from.now.shown.view.run ≡ toggle }
    requires event { event < 4 }
{
    let event = EventId::new(event);
    let count = from.count(event);
    if count != tickets.len() as u64 {
        return false;
    }
    for k in 0..tickets.len() {
        if from.ticket(event, k) != tickets[k] {
            return false;
        }
    }
    true
}
