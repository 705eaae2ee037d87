//! The arcs of an expansion.
ghost use Rattle.std.specs.Prelude.{◌≡◌, ◌+◌, ◌*◌, ◌<◌, ◌≤◌, ◌++◌, All, IfOk, OnOk};
ghost use Rattle.std.specs.List.{flat_map};
ghost use Rattle.ds_latch.specs.Node.{nodes};
ghost use Rattle.ds_shake.specs.Expansion.{expanded_arcs, handshake_arcs, order_arcs};
ghost use Rattle.ds_shake.specs.Expansion.{return_arcs};
ghost use Rattle.ds_shake.specs.Steps.{HasLowNumbers};

use crate::Handshake;
use ds_base::EventId;
use ds_control::{arc, closing, opening, push_node_arcs, tokens_after};
use ds_latch::Latches;
use ds_marked::Arc;
use std::alloc::{AllocError, Global};

/// Where the events of handshakes begin, behind those of so many nodes, and how far a producer may
/// run ahead.
#[derive(Clone, Copy)]
pub struct Frame {
    pub nodes: u32,
    pub slack: u8,
}

// The arcs of the nodes, and behind them eight of each handshake.
pub(crate) fn arcs_of(
    alloc: Global,
    latches: &Latches<'_>,
    all: &[Handshake],
) -> Result<Vec<Arc>, AllocError>
    requires few { nodes latches.now ≤ 65536 }
    requires low { All HasLowNumbers all.now }
    ensures { IfOk result (λ arcs. arcs.items ≡ expanded_arcs latches.now all.now) }
{
    let frame = Frame {
        nodes: latches.nodes() as u32,
        slack: latches.slack(),
    };
    let mut arcs = Vec::new(alloc);
    push_node_arcs(frame.nodes, &mut arcs)?;
    push_handshakes(frame, all, &mut arcs)?;
    Ok(arcs)
}

// Eight arcs of each handshake, behind others.
fn push_handshakes(frame: Frame, all: &[Handshake], arcs: &mut Vec<Arc>) -> Result<(), AllocError>
    requires few { (frame.nodes ≤ 65536) × (frame.slack ≤ 15) }
    requires low { All HasLowNumbers all.now }
    ensures { OnOk result (arcs.new.items ≡ arcs.old.items
        ++ flat_map (handshake_arcs frame.nodes frame.slack) all.now) }
{
    for handshake in all {
        push_orders(frame, handshake, arcs)?;
        push_returns(frame, handshake, arcs)?;
    }
    Ok(())
}

// The arcs that carry its two orders.
fn push_orders(frame: Frame, handshake: &Handshake, arcs: &mut Vec<Arc>) -> Result<(), AllocError>
    requires few { (frame.nodes ≤ 65536) × (frame.slack ≤ 15) }
    requires low { HasLowNumbers handshake.now }
    ensures { OnOk result (arcs.new.items ≡ arcs.old.items
        ++ order_arcs frame.nodes frame.slack handshake.now) }
{
    let reading = tokens_after(handshake.producer);
    let opens = opening(handshake.producer);
    arcs.push(arc(opens, event(frame, handshake, 0), 0))?;
    arcs.push(arc(
        event(frame, handshake, 0),
        opening(handshake.consumer),
        reading,
    ))?;
    arcs.push(arc(closing(handshake.consumer), event(frame, handshake, 2), 0))?;
    arcs.push(arc(event(frame, handshake, 2), opens, frame.slack + 1 - reading))?;
    Ok(())
}

// The arcs that bring its request and its acknowledge back.
fn push_returns(frame: Frame, handshake: &Handshake, arcs: &mut Vec<Arc>) -> Result<(), AllocError>
    requires few { (frame.nodes ≤ 65536) × (frame.slack ≤ 15) }
    requires low { HasLowNumbers handshake.now }
    ensures { OnOk result (arcs.new.items ≡ arcs.old.items
        ++ return_arcs frame.nodes frame.slack handshake.now) }
{
    let freeing = frame.slack + 1 - tokens_after(handshake.producer);
    arcs.push(arc(event(frame, handshake, 2), event(frame, handshake, 1), 0))?;
    arcs.push(arc(event(frame, handshake, 1), event(frame, handshake, 3), 0))?;
    arcs.push(arc(
        event(frame, handshake, 3),
        event(frame, handshake, 0),
        freeing,
    ))?;
    arcs.push(arc(event(frame, handshake, 3), event(frame, handshake, 2), 1))?;
    Ok(())
}

// One of the four events of a handshake.
fn event(frame: Frame, handshake: &Handshake, phase: u32) -> EventId
    requires few { frame.nodes ≤ 65536 }
    requires low { HasLowNumbers handshake.now × (phase < 4) }
    ensures { result ≡ 2 * frame.nodes + 4 * handshake.now.number + phase }
{
    EventId::new(2 * frame.nodes + 4 * handshake.number + phase)
}
