//! What the nodes keep.
ghost use Rattle.std.specs.Prelude.{◌≡◌, ◌<◌, ◌^◌, IfOk, All, length};
ghost use Rattle.ds_cover.specs.Cover.{values_at};
ghost use Rattle.ds_latch.specs.Node.{nodes};
ghost use Rattle.ds_fire.specs.First.{AreEmpty, AreFirstRows, AreZeros, HasFirstRow, IsFirstRow};

use crate::stored_rows::StoredRows;
use ds_base::{LatchId, OutOfMemory, RegId, Row3};
use ds_latch::{Latches, Node};
use std::alloc::Global;

// The rows of the nodes, place by place, what they have stored, and a row of all nets to settle in.
#[derive(Drop)]
pub(crate) struct Kept {
    pub(crate) nets: Row3,
    pub(crate) rows: Vec<Row3>,
    pub(crate) stored: Vec<StoredRows>,
}

impl Kept {
    // Before the first firing, with room for so many rows.
    pub(crate) fn first(alloc: Global, latches: &Latches, limit: usize) -> Result<Self, OutOfMemory>
        requires few { nodes latches.now < 2 ^ 32 }
        requires short { limit < 2 ^ 32 }
        ensures nets { IfOk result (λ kept. length kept.nets ≡ length latches.now.circuit.nets) }
        ensures rows { IfOk result (λ kept. AreFirstRows latches.now kept.rows.items) }
        ensures stored { IfOk result (λ kept. AreEmpty latches.now limit kept.stored.items) }
    {
        Ok(Kept {
            nets: Row3::with_len(alloc, latches.netlist().design().nets().len())?,
            rows: first_rows(alloc, latches)?,
            stored: histories(alloc, latches, limit)?,
        })
    }
}

// The rows before the first opening.
fn first_rows(alloc: Global, latches: &Latches) -> Result<Vec<Row3>, OutOfMemory>
    requires { nodes latches.now < 2 ^ 32 }
    ensures { IfOk result (λ rows. AreFirstRows latches.now rows.items) }
{
    let places = latches.slack() as usize + 1;
    let nodes = latches.nodes();
    let mut rows = Vec::with_capacity(alloc, nodes * places)?;
    for k in 0..nodes * places {
        rows.push(first_row(alloc, latches, k / places, k % places)?)?;
    }
    Ok(rows)
}

// The row of the node with this number at a place: the initial one of a slave, else zeros.
fn first_row(
    alloc: Global,
    latches: &Latches,
    number: usize,
    place: usize,
) -> Result<Row3, OutOfMemory>
    requires { number < nodes latches.now }
    ensures { IfOk result (λ row. HasFirstRow latches.now number place row) }
{
    let mut row = zeros_of(alloc, latches, number)?;
    if place != 0 {
        return Ok(row);
    }
    set_first(latches, number, &mut row);
    Ok(row)
}

// Zeros, as many as the node with this number has nets.
fn zeros_of(alloc: Global, latches: &Latches, number: usize) -> Result<Row3, OutOfMemory>
    requires { number < nodes latches.now }
    ensures { IfOk result (λ row. AreZeros latches.now number row) }
{
    Row3::with_len(alloc, latches.bits()[number].as_slice().len())
}

// A slave begins with the initial values of its registers.
fn set_first(latches: &Latches, number: usize, row: &mut Row3)
    requires node { number < nodes latches.now }
    requires zeros { AreZeros latches.now number row.old }
    ensures { IsFirstRow latches.now number row.new }
{
    // The nodes are counted for the fact that there are not too many.
    let _nodes = latches.nodes();
    let Node::Slave(cluster) = Node::of(LatchId::new(number as u32)) else {
        return;
    };
    let registers = latches.clusters()[cluster as usize].as_slice();
    set_initial(latches.initial(), registers, row);
}

// The values of these registers.
fn set_initial(values: &Row3, registers: &[RegId], row: &mut Row3)
    requires one_each { length row.old ≡ length registers.now }
    requires within { All (λ r. r < length values.now) registers.now }
    ensures { row.new ≡ values_at values.now registers.now }
{
    for (i, register) in registers.iter().enumerate() {
        row.set(i, values.value(register.index()));
    }
}

// Nothing stored, with room for so many rows of each node.
fn histories(alloc: Global, latches: &Latches, limit: usize) -> Result<Vec<StoredRows>, OutOfMemory>
    requires short { limit < 2 ^ 32 }
    ensures { IfOk result (λ stored. AreEmpty latches.now limit stored.items) }
{
    let bits = latches.bits();
    let mut stored = Vec::with_capacity(alloc, bits.len())?;
    for these in bits {
        let room = limit * these.as_slice().len();
        stored.push(StoredRows::with_room(alloc, room)?)?;
    }
    Ok(stored)
}
