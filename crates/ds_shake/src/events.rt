//! The events of an expansion.
ghost use Rattle.std.specs.Prelude.{◌≡◌, ◌++◌, IfOk, OnOk};
ghost use Rattle.std.specs.List.{flat_map};
ghost use Rattle.ds_shake.specs.Expansion.{expanded_events, handshake_events};

use crate::Handshake;
use ds_base::{OutOfMemory, Seq};
use ds_control::{node_events, push_events};
use ds_latch::Latches;
use ds_marked::Event;
use itoa::Buffer;
use std::alloc::Global;

// The events of the nodes, and behind them four of each handshake.
pub(crate) fn events_of(
    alloc: Global,
    latches: &Latches<'_>,
    all: &[Handshake],
) -> Result<Seq<Event>, OutOfMemory>
    ensures { IfOk result (λ events. events ≡ expanded_events latches.now all.now) }
{
    let mut events = node_events(alloc, latches.clusters().len())?;
    push_handshakes(alloc, all, &mut events)?;
    Ok(events)
}

// Four events of each handshake, behind others.
fn push_handshakes(
    alloc: Global,
    all: &[Handshake],
    events: &mut Seq<Event>,
) -> Result<(), OutOfMemory>
    ensures { OnOk result (events.new ≡ events.old ++ flat_map handshake_events all.now) }
{
    for handshake in all {
        push_handshake(alloc, handshake, events)?;
    }
    Ok(())
}

// The four events of a handshake: of its request, and of its acknowledge.
fn push_handshake(
    alloc: Global,
    handshake: &Handshake,
    events: &mut Seq<Event>,
) -> Result<(), OutOfMemory>
    ensures { OnOk result (events.new ≡ events.old ++ handshake_events handshake.now) }
{
    let mut buffer = Buffer::new();
    let digits = buffer.format(handshake.number).as_bytes();
    push_events(alloc, b"r", digits, events)?;
    push_events(alloc, b"a", digits, events)
}
