//! The text of a period.
ghost use Rattle.std.specs.Prelude.{◌≡◌, ◌++◌, length, IfOk, OnOk};
ghost use Rattle.ds_stage.specs.PeriodStage.{cycle_line, period_text as period_text_of};
ghost use Rattle.ds_stage.specs.PeriodStage.{potential_line, potential_lines, ratio_line};

use ds_base::EventId;
use ds_marked::Marked;
use ds_period::answer::Period;
use ds_stage::{put_event, put_events};
use itoa::Buffer;
use std::alloc::{AllocError, Global};

/// The text of a period: the ratio, the cycle, and a line for each event of the graph, in order,
/// with its potential.
pub fn period_text(alloc: Global, graph: &Marked, period: &Period) -> Result<Vec<u8>, AllocError>
    requires { length period.now.potentials ≡ length graph.now.events }
    ensures { IfOk result (λ text. text.items ≡ period_text_of graph.now period.now.p
        period.now.q period.now.cycle period.now.potentials) }
{
    let mut text = ratio(alloc, period.p, period.q)?;
    put_cycle(&mut text, graph, period.cycle.as_slice())?;
    put_potentials(&mut text, graph, period.potentials.as_slice())?;
    Ok(text)
}

// The line of a ratio.
fn ratio(alloc: Global, delay: u64, tokens: u64) -> Result<Vec<u8>, AllocError>
    ensures { IfOk result (λ text. text.items ≡ ratio_line delay tokens) }
{
    let mut buffer = Buffer::new();
    let mut text = Vec::from_slice(alloc, b"period ")?;
    text.extend_from_slice(buffer.format(delay).as_bytes())?;
    text.extend_from_slice(b"/")?;
    text.extend_from_slice(buffer.format(tokens).as_bytes())?;
    text.extend_from_slice(b"\n")?;
    Ok(text)
}

// Puts the line of a cycle behind a text.
fn put_cycle(text: &mut Vec<u8>, graph: &Marked, cycle: &[EventId]) -> Result<(), AllocError>
    ensures { OnOk result (text.new.items ≡ text.old.items ++ cycle_line graph.now cycle.now) }
{
    text.extend_from_slice(b"cycle")?;
    put_events(text, graph, cycle)?;
    text.extend_from_slice(b"\n")
}

// Puts the lines of all potentials behind a text.
fn put_potentials(text: &mut Vec<u8>, graph: &Marked, potentials: &[u128]) -> Result<(), AllocError>
    requires { length potentials.now ≡ length graph.now.events }
    ensures { OnOk result (text.new.items ≡ text.old.items
        ++ potential_lines graph.now potentials.now (length graph.now.events)) }
{
    for v in 0..graph.events().len() {
        put_potential(text, graph, EventId::new(v as u32), potentials[v])?;
    }
    Ok(())
}

// Puts the line of an event's potential behind a text.
fn put_potential(
    text: &mut Vec<u8>,
    graph: &Marked,
    event: EventId,
    potential: u128,
) -> Result<(), AllocError>
    ensures { OnOk result (text.new.items
        ≡ text.old.items ++ potential_line graph.now event potential) }
{
    let mut buffer = Buffer::new();
    text.extend_from_slice(b"potential ")?;
    put_event(text, graph, event)?;
    text.extend_from_slice(b" ")?;
    text.extend_from_slice(buffer.format(potential).as_bytes())?;
    text.extend_from_slice(b"\n")
}
