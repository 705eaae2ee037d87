//! What the words of 64 turns are worked out in.
ghost use Rattle.std.specs.Prelude.{◌≡◌, ◌⊎◌, ◌<◌, ◌≤◌, ◌^◌, ℕ, length, map, slice_index};
ghost use Rattle.std.specs.Prelude.{IfOk, MatchOption};
ghost use Rattle.ds_base.specs.Values.{AreKnown};
ghost use Rattle.ds_design.specs.Circuit.{columns};
ghost use Rattle.ds_feedback.specs.Links.{links};
ghost use Rattle.ds_feedback.specs.Sequence.{HasFeedback, IsSequence};
ghost use Rattle.ds_slices.specs.Ready.{AreReady};
ghost use Rattle.ds_slices.specs.Turns.{AreKnownTurns, AreTurns};

use crate::columns::set_columns;
use crate::links::set_links;
use ds_base::{NetId, OutOfMemory, Row3};
use ds_design::{Netlist, Register, Vectors};
use ds_feedback::sequence;
use std::alloc::{AllocError, Global};

/// An order of the tables and registers of a netlist, a word for each net, a row to work in, the
/// nets that the registers drive, and a byte for each output and each of these nets.
pub struct Slices {
    pub order: Vec<u32>,
    pub words: Vec<u64>,
    pub nets: Row3,
    pub registers: Vec<NetId>,
    pub output_bytes: Vec<u8>,
    pub register_bytes: Vec<u8>,
}

impl Drop for Slices {
    fn drop(self) {
        let Slices {
            order: _,
            words: _,
            nets: _,
            registers: _,
            output_bytes: _,
            register_bytes: _,
        } = self;
    }
}

impl Slices {
    /// For a netlist in which no register feeds back; there is none where one does, or where there
    /// are 2^32 tables and registers or more.
    pub fn of(alloc: Global, netlist: &Netlist) -> Result<Option<Self>, OutOfMemory>
        ensures ok { IfOk result (λ found. MatchOption found
            (HasFeedback netlist.now ⊎ (2 ^ 32 ≤ length (links netlist.now)))
            (AreReady netlist.now)) }
    {
        match sequence(alloc, netlist)? {
            Some(order) => Ok(Some(Slices::with_order(alloc, netlist, order)?)),
            None => Ok(None),
        }
    }

    // With this order.
    fn with_order(alloc: Global, netlist: &Netlist, order: Vec<u32>) -> Result<Self, OutOfMemory>
        requires { IsSequence netlist.now order.items }
        ensures { IfOk result (AreReady netlist.now) }
    {
        let design = netlist.design();
        Ok(Slices {
            order,
            words: vec![in alloc; 0; design.nets().len()]?,
            nets: Row3::with_len(alloc, design.nets().len())?,
            registers: register_nets(alloc, design.registers())?,
            output_bytes: vec![in alloc; 0; design.outputs().len()]?,
            register_bytes: vec![in alloc; 0; design.registers().len()]?,
        })
    }
}

// The nets that the registers drive.
fn register_nets(alloc: Global, registers: &[Register]) -> Result<Vec<NetId>, AllocError>
    ensures { IfOk result (λ v. v.items ≡ map (λ r. r.output) registers.now) }
{
    registers
        .iter()
        .map(|register| register.output)
        .collect(alloc)
}

/// Works out the words of up to 64 turns from one on, begun with these registers.
pub fn set_words(
    netlist: &Netlist,
    start: &Row3,
    vectors: &Vectors,
    from: usize,
    slices: &mut Slices,
)
    requires ready { AreReady netlist.now slices.old }
    requires start { length start.now ≡ length netlist.now.registers }
    requires width { vectors.now.width ≡ length (columns netlist.now) }
    requires from { from ≤ length vectors.now.rows }
    requires known { AreKnown start.now × AreKnownTurns vectors.now.rows from }
    ensures ready { AreReady netlist.now slices.new }
    ensures turns { AreTurns netlist.now start.now vectors.now.rows from slices.new.words.items }
{
    // Read for the facts that it is accepted, and that its numbers and vectors are in range.
    let _design = netlist.design();
    let _count = vectors.count();
    let order = slices.order.as_slice();
    let words = slices.words.as_mut_slice();
    clear(words);
    set_columns(netlist.columns(), vectors, from, words);
    set_links(netlist, order, start, &mut slices.nets, words);
}

// Zeros.
fn clear(words: &mut [u64])
    ensures same { length words.new ≡ length words.old }
    ensures zero { (net : ℕ) → slice_index words.new net ≡ 0 }
{
    for net in 0..words.len() {
        words[net] = 0;
    }
}
