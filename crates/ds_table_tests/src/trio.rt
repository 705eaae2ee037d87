//! A run of three nodes that fire freely, on which the tests stand.
ghost use Rattle.std.specs.Prelude.{◌≡◌, ◌<◌, ◌≤◌, ◌+◌, IfOk, OnOk, vec_capacity, false};
ghost use Rattle.ds_runner.specs.TurnstileRule.{base};
ghost use Rattle.ds_table_tests.specs.Trio.{zero_rows, trio, small_memory, CarriesFrom};
ghost use Rattle.ds_table_tests.specs.Trio.{CarriesOne, AreTrio};

use ds_base::{LatchId, OutOfMemory, Scratch};
use ds_fabric::{Compute, Fabric, Pass};
use ds_rule::{RunValues, Sizes, TableRun};
use std::alloc::Global;

/// Each value is zero.
#[derive(Drop)]
pub struct Trio;

impl RunValues for Trio {
    ghost rows = { λ _. zero_rows };
}

impl Compute for Trio {
    ghost run = { λ _. trio };

    ghost memory = { λ _. small_memory };

    ghost has_learnt = { λ _ _ _ _. false };

    fn scratch(&self, alloc: Global) -> Result<Scratch, OutOfMemory> {
        Scratch::of(alloc, 1, 0)
    }

    fn cost(&self, node: LatchId) -> u64 {
        1
    }

    fn first(&self, node: LatchId, i: usize) -> u64 {
        0
    }

    fn has_learnt(&self, producer: LatchId, turn: u64, scratch: &Scratch) -> bool {
        false
    }

    fn compute(&self, node: LatchId, turn: u64, _: &[u64], _: &mut Scratch, into: &mut Vec<u64>) {
        into.push_reserved(0);
    }
}

/// What the run is of.
pub fn table_run(alloc: Global) -> Result<TableRun<Trio>, OutOfMemory>
    ensures { IfOk result (λ l. l ≡ trio) }
{
    let arcs = Vec::new(alloc);
    let edges = Vec::new(alloc);
    let lengths = Vec::from_array(alloc, [1, 1, 1])?;
    let sizes = Sizes {
        nodes: 3,
        design_nodes: 2,
        limit: 2,
        slack: 0,
    };
    Ok(TableRun::of(sizes, arcs, edges, lengths, Trio))
}

/// The table in which nothing has fired, and a pass for each node.
pub fn begin(
    alloc: Global,
    run: &TableRun<Trio>,
) -> Result<(Fabric<'_, Trio, Trio>, Vec<Pass>), OutOfMemory>
    requires { run.now ≡ trio }
    ensures { IfOk result (λ r. AreTrio r.0 r.1.items × (base 0 r.1.items ≡ 0)
        × (3 ≤ vec_capacity r.1)) }
{
    let (fabric, mut all) = Fabric::build(alloc, run, &Trio)?;
    let passes = deal_all(alloc, &fabric, &mut all)?;
    Ok((fabric, passes))
}

// A bare pass for each node, in order.
fn deal_all(
    alloc: Global,
    fabric: &Fabric<Trio, Trio>,
    all: &mut Pass,
) -> Result<Vec<Pass>, OutOfMemory>
    requires { CarriesFrom 0 fabric.now all.old }
    ensures { IfOk result (λ v. AreTrio fabric.now v.items × (base 0 v.items ≡ 0)
        × (3 ≤ vec_capacity v)) }
{
    let mut passes = Vec::with_capacity(alloc, 3)?;
    passes.push_reserved(deal(alloc, fabric, all, 0)?);
    passes.push_reserved(deal(alloc, fabric, all, 1)?);
    passes.push_reserved(deal(alloc, fabric, all, 2)?);
    Ok(passes)
}

// The node goes to a bare pass of its own.
fn deal(
    alloc: Global,
    fabric: &Fabric<Trio, Trio>,
    all: &mut Pass,
    node: u32,
) -> Result<Pass, OutOfMemory>
    requires all { CarriesFrom node fabric.now all.old }
    requires node { node < 3 }
    ensures dealt { IfOk result (CarriesOne node fabric.now) }
    ensures left { OnOk result (CarriesFrom (node + 1) fabric.now all.new) }
{
    fabric.deal_bare(alloc, all, LatchId::new(node))
}
