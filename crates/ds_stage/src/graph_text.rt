//! The texts of faults of a graph, and of its events.
ghost use Rattle.std.specs.Prelude.{◌≡◌, ◌++◌, ℕ, IfOk, OnErr, OnOk, codes, decimal, map};
ghost use Rattle.ds_marked.specs.Log.{event_text, text_of_event};
ghost use Rattle.ds_control.specs.Part.{PushesPart};
ghost use Rattle.ds_stage.specs.FaultText.{with_blanks};
ghost use Rattle.ds_stage.specs.GraphText.{IsAcceptText, astg_text as astg_text_of, walk_text};

use crate::fault_line::too_many;
use crate::fault_text::with_name;
use ds_accept::AcceptFault;
use ds_astg::AstgKind;
use ds_base::{EventId, OutOfMemory};
use ds_marked::{Event, Marked};
use itoa::Buffer;
use std::alloc::{AllocError, Global};

/// The text of a fault of a line of a graph.
pub fn astg_text(alloc: Global, kind: &AstgKind) -> Result<Vec<u8>, AllocError>
    ensures { IfOk result (λ text. text.items ≡ astg_text_of kind.now) }
{
    match kind {
        AstgKind::Unsupported(word) => with_name(alloc, b"unsupported command ", word),
        AstgKind::BadWord(word) => with_name(alloc, b"bad word ", word),
        AstgKind::Instance(word) => with_name(alloc, b"instance ", word),
        AstgKind::UnknownSignal(word) => with_name(alloc, b"unknown signal ", word),
        AstgKind::NotMarkedGraph(place) => with_name(alloc, b"not a marked graph: ", place),
        AstgKind::BadMarking(word) => with_name(alloc, b"bad marking ", word),
        AstgKind::TooMany(limit) => too_many(alloc, *limit),
    }
}

/// The text of a fault of a graph that is not accepted; none of want of memory.
pub fn accept_text(
    alloc: Global,
    graph: &Marked,
    fault: &AcceptFault,
) -> Result<Vec<u8>, OutOfMemory>
    ensures { IfOk result (λ text. IsAcceptText graph.now fault.now text.items) }
{
    match fault {
        AcceptFault::MissingEvent(event) => missing(alloc, event),
        AcceptFault::MissingOrder {
            from,
            to,
            tokens,
            least,
            numbers: _,
        } => {
            let mut text = missing_order(alloc, graph, *from, *to, *tokens)?;
            put_walk(&mut text, *least)?;
            Ok(text)
        }
        AcceptFault::TokenFreeCycle(events) => cycle(alloc, graph, events.as_slice()),
        AcceptFault::Memory => Err(OutOfMemory),
    }
}

// A node's event that lacks.
fn missing(alloc: Global, event: &Event) -> Result<Vec<u8>, OutOfMemory>
    ensures { IfOk result (λ text. text.items ≡ codes "missing event " ++ event_text event.now) }
{
    let mut text = Vec::from_slice(alloc, b"missing event ")?;
    let pieces = event.text();
    text.extend_from_slice(pieces.name)?;
    text.extend_from_slice(pieces.sign)?;
    Ok(text)
}

// An order that no walk gives.
fn missing_order(
    alloc: Global,
    graph: &Marked,
    source: EventId,
    target: EventId,
    tokens: u8,
) -> Result<Vec<u8>, OutOfMemory>
    ensures { IfOk result (λ text. text.items
        ≡ codes "missing order " ++ text_of_event graph.now source ++ codes " to "
        ++ text_of_event graph.now target ++ codes " with " ++ decimal tokens
        ++ codes " tokens") }
{
    let mut buffer = Buffer::new();
    let mut text = Vec::from_slice(alloc, b"missing order ")?;
    put_event(&mut text, graph, source)?;
    text.extend_from_slice(b" to ")?;
    put_event(&mut text, graph, target)?;
    text.extend_from_slice(b" with ")?;
    text.extend_from_slice(buffer.format(tokens).as_bytes())?;
    text.extend_from_slice(b" tokens")?;
    Ok(text)
}

// Puts how few tokens there are along a walk behind a text.
fn put_walk(text: &mut Vec<u8>, least: Option<u64>) -> Result<(), AllocError>
    ensures { OnOk result (text.new.items ≡ text.old.items ++ walk_text least) }
{
    match least {
        Some(sum) => {
            let mut buffer = Buffer::new();
            text.extend_from_slice(b" (least walk ")?;
            text.extend_from_slice(buffer.format(sum).as_bytes())?;
            text.extend_from_slice(b")")
        }
        None => text.extend_from_slice(b" (no walk)"),
    }
}

// A cycle of arcs without tokens.
fn cycle(alloc: Global, graph: &Marked, events: &[EventId]) -> Result<Vec<u8>, OutOfMemory>
    ensures { IfOk result (λ text. text.items
        ≡ codes "token-free cycle:" ++ with_blanks (map (text_of_event graph.now) events.now)) }
{
    let mut text = Vec::from_slice(alloc, b"token-free cycle:")?;
    put_events(&mut text, graph, events)?;
    Ok(text)
}

/// Puts events behind a text, each with a blank before it.
pub fn put_events(text: &mut Vec<u8>, graph: &Marked, events: &[EventId]) -> Result<(), AllocError>
    ensures ok { OnOk result (text.new.items
        ≡ text.old.items ++ with_blanks (map (text_of_event graph.now) events.now)) }

    // For want of memory.
    ensures part { OnErr result (PushesPart text.old.items text.new.items
        (with_blanks (map (text_of_event graph.now) events.now))) }
{
    for event in events {
        text.extend_from_slice(b" ")?;
        put_event(text, graph, *event)?;
    }
    Ok(())
}

/// Puts an event behind a text, or nothing where there is none of this number.
pub fn put_event(text: &mut Vec<u8>, graph: &Marked, event: EventId) -> Result<(), AllocError>
    ensures ok { OnOk result (text.new.items ≡ text.old.items ++ text_of_event graph.now event) }

    // For want of memory.
    ensures part { OnErr result
        (PushesPart text.old.items text.new.items (text_of_event graph.now event)) }
{
    let Some(event) = graph.events().get(event.index()) else {
        return Ok(());
    };
    text.extend_from_slice(event.signal.as_slice())?;
    text.extend_from_slice(event.kind.sign())
}
