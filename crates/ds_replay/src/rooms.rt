//! What the text of a state takes before its first byte is written.
ghost use Rattle.std.specs.Prelude.{◌≡◌, ◌<◌, ◌≤◌, IfOk, true, length};
ghost use Rattle.ds_latch.specs.Node.{IsNode, number_of, nodes, nets_of};
ghost use Rattle.ds_latch.specs.declared.node.Node.{Node};
ghost use Rattle.ds_fire.specs.Snapshot.{split_of};
ghost use Rattle.ds_rows.specs.Homes.{AreHomes};
ghost use Rattle.ds_replay.specs.OpenLines.{AreShown, IsShownAt};

use crate::after_log::AfterLog;
use ds_base::{LatchId, OutOfMemory, Row3};
use ds_fire::State;
use ds_latch::Latches;
use ds_rows::{Home, homes_of};
use std::alloc::Global;

/// Where the registers stand; and where it is wanted what open latches show, a row for each node.
pub struct Rooms {
    pub homes: Vec<Home>,
    pub rows: Vec<Row3>,
}

impl Drop for Rooms {
    fn drop(self) {
        let Rooms { homes: _, rows: _ } = self;
    }
}

impl Rooms {
    /// For the state after a log.
    pub fn of(
        alloc: Global,
        latches: &Latches<'_>,
        after: &AfterLog<'_>,
    ) -> Result<Self, OutOfMemory>
        requires split { split_of after.now.state.now ≡ latches.now }
        requires slack { after.now.transparent ≡ true → (split_of after.now.state.now).slack ≡ 0 }
        ensures homes { IfOk result (λ rooms. AreHomes latches.now rooms.homes.items) }
        ensures rows { IfOk result (λ rooms. after.now.transparent ≡ true
            → AreShown after.now.state.now rooms.rows.items) }
    {
        Ok(Rooms {
            homes: homes_of(alloc, latches)?,
            rows: wanted_rows(alloc, latches, after)?,
        })
    }
}

// What open latches show, where it is wanted.
fn wanted_rows(
    alloc: Global,
    latches: &Latches<'_>,
    after: &AfterLog<'_>,
) -> Result<Vec<Row3>, OutOfMemory>
    requires split { split_of after.now.state.now ≡ latches.now }
    requires slack { after.now.transparent ≡ true → (split_of after.now.state.now).slack ≡ 0 }
    ensures { IfOk result (λ rows. after.now.transparent ≡ true
        → AreShown after.now.state.now rows.items) }
{
    let transparent = after.transparent;
    if !transparent {
        return Ok(Vec::new(alloc));
    }
    let rows = shown_rows(alloc, latches, after.state)?;
    Ok(rows)
}

// For each node a row; of an open one, what it shows.
fn shown_rows(
    alloc: Global,
    latches: &Latches<'_>,
    state: &State<'_>,
) -> Result<Vec<Row3>, OutOfMemory>
    requires split { split_of state.now ≡ latches.now }
    requires slack { (split_of state.now).slack ≡ 0 }
    ensures { IfOk result (λ rows. AreShown state.now rows.items) }
{
    let mut nets = Row3::with_len(alloc, latches.netlist().design().nets().len())?;
    // The edges are read for the fact that there are not too many nodes.
    let (_edges, bits) = (latches.edges(), latches.bits());
    let mut rows = Vec::with_capacity(alloc, bits.len())?;
    for number in 0..bits.len() {
        let mut row = Row3::with_len(alloc, bits[number].as_slice().len())?;
        show(state, LatchId::new(number as u32), &mut nets, &mut row);
        rows.push(row)?;
    }
    Ok(rows)
}

// Where a node is open, a row becomes what it shows, by way of a row of all nets.
fn show(state: &State<'_>, node: LatchId, nets: &mut Row3, row: &mut Row3)
    requires node { node < nodes (split_of state.now) }
    requires slack { (split_of state.now).slack ≡ 0 }
    requires nets { length nets.old ≡ length (split_of state.now).circuit.nets }
    requires width { (n : Node) → IsNode (split_of state.now) n → number_of n ≡ node
        → length row.old ≡ length (nets_of (split_of state.now) n) }
    ensures same { length nets.new ≡ length nets.old }
    ensures shown { IsShownAt state.now node row.new }
{
    if state.is_open(node) {
        state.output(node, nets, row);
    }
}
