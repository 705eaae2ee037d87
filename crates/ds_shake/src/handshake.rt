//! The data edges with their numbers.
ghost use Rattle.std.specs.Prelude.{◌≡◌, ◌+◌, ◌*◌, ◌<◌, ◌≤◌, ◌^◌, length, IfOk};
ghost use Rattle.ds_latch.specs.Node.{nodes};
ghost use Rattle.ds_shake.specs.Handshakes.{AreHandshakes};
ghost use Rattle.ds_shake.specs.Steps.{AreNumberedEnds};

use crate::edge_ends::{EdgeEnds, pairs_of, sort_pairs};
use ds_base::LatchId;
use ds_latch::Latches;
use std::alloc::{AllocError, Global};

/// A data edge with its number, from 0: it has a request and an acknowledge.
#[derive(Clone, Copy, Debug)]
pub struct Handshake {
    pub number: u32,
    pub producer: LatchId,
    pub consumer: LatchId,
}

// The data edges, numbered by producer and then by consumer.
pub(crate) fn handshakes(alloc: Global, latches: &Latches<'_>) -> Result<Vec<Handshake>, AllocError>
    ensures ok { IfOk result (λ all. AreHandshakes latches.now all.items) }
    ensures few { IfOk result (λ all. 2 * nodes latches.now + 2 * length all.items ≤ 1048576) }
{
    let edges = latches.edges();
    let mut pairs = pairs_of(alloc, edges)?;
    sort_pairs(&mut pairs)?;
    numbered(alloc, pairs.as_slice())
}

// Each with the number of its place.
fn numbered(alloc: Global, pairs: &[EdgeEnds]) -> Result<Vec<Handshake>, AllocError>
    requires { length pairs.now < 2 ^ 32 }
    ensures { IfOk result (λ all. AreNumberedEnds pairs.now all.items) }
{
    (0..pairs.len() as u32)
        .zip(pairs)
        .map(|(number, pair)| Handshake {
            number,
            producer: pair.producer,
            consumer: pair.consumer,
        })
        .collect(alloc)
}
