//! The events of the nodes.
ghost use Rattle.std.specs.Prelude.{◌≡◌, ◌++◌, IfOk, OnErr, OnOk};
ghost use Rattle.ds_latch.specs.declared.node.Node.TheVariants.{In, Out, Master, Slave};
ghost use Rattle.ds_latch.specs.Plan.{node_events};
ghost use Rattle.ds_control.specs.Orders.{cluster_events, signal_events};
ghost use Rattle.ds_control.specs.Part.{PushesPart};

use ds_base::{OutOfMemory, Seq};
use ds_marked::{Event, Kind};
use itoa::Buffer;
use std::alloc::Global;

/// The events of `IN`, of `OUT`, and of the master and the slave of each cluster.
pub fn node_events(alloc: Global, clusters: usize) -> Result<Seq<Event>, OutOfMemory>
    ensures { IfOk result (λ e. e ≡ node_events In ++ node_events Out ++ cluster_events clusters) }
{
    let mut events = Seq::new(alloc);
    push_events(alloc, b"IN", b"", &mut events)?;
    push_events(alloc, b"OUT", b"", &mut events)?;
    for i in 0..clusters {
        push_cluster(alloc, i, &mut events)?;
    }
    Ok(events)
}

// The events of the nodes of a cluster.
fn push_cluster(alloc: Global, i: usize, events: &mut Seq<Event>) -> Result<(), OutOfMemory>
    ensures { OnOk result
        (events.new ≡ events.old ++ (node_events (Master i) ++ node_events (Slave i))) }
{
    let mut buffer = Buffer::new();
    let digits = buffer.format(i).as_bytes();
    push_events(alloc, b"M", digits, events)?;
    push_events(alloc, b"S", digits, events)
}

/// Both events of the signal whose name is a word, or a letter, and digits.
pub fn push_events(
    alloc: Global,
    word: &[u8],
    digits: &[u8],
    events: &mut Seq<Event>,
) -> Result<(), OutOfMemory>
    ensures ok { OnOk result (events.new ≡ events.old ++ signal_events (word.now ++ digits.now)) }

    // For want of memory.
    ensures part { OnErr result
        (PushesPart events.old events.new (signal_events (word.now ++ digits.now))) }
{
    events.push(event(alloc, word, digits, Kind::Rise)?)?;
    events.push(event(alloc, word, digits, Kind::Fall)?)?;
    Ok(())
}

fn event(alloc: Global, word: &[u8], digits: &[u8], kind: Kind) -> Result<Event, OutOfMemory>
    ensures { IfOk result (λ e. e ≡ record { signal = word.now ++ digits.now; kind = kind }) }
{
    let mut name = Vec::from_slice(alloc, word)?;
    name.extend_from_slice(digits)?;
    let signal = Seq::of(name);
    Ok(Event { signal, kind })
}
