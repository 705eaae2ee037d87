//! The lines of the graph part.
ghost use Rattle.std.specs.Prelude.{◌≡◌, ◌<◌, length};
ghost use Rattle.ds_outside.specs.Pen.{Puts};
ghost use Rattle.ds_marked.specs.Graph.{IsRangeFrom};
ghost use Rattle.ds_astg.specs.Pieces.{all_below};
ghost use Rattle.ds_astg.specs.Text.{arc_text, event_line, place_line, target_text};

use crate::piece::{is_further, put_event, put_place};
use ds_base::EventId;
use ds_marked::Marked;
use ds_outside::Pen;

/// Writes the line of an event, where arcs lead from it.
pub fn put_event_line<P: Pen>(graph: &Marked, event: EventId, pen: &mut P)
    requires { event < length graph.now.events }
    ensures { Puts (P.writing pen.old) (P.writing pen.new) (event_line graph.now event) }
{
    let range = graph.arcs_from(event);
    if range.start == range.end {
        return;
    }
    put_event(graph, event, pen);
    put_targets(graph, event, range.start, range.end, pen);
    pen.put(b"\n");
}

// Writes what stands for the arcs from an event, which are those from one place up to another.
fn put_targets<P: Pen>(graph: &Marked, event: EventId, start: usize, end: usize, pen: &mut P)
    requires { IsRangeFrom graph.now.arcs event start end }
    ensures { Puts (P.writing pen.old) (P.writing pen.new)
        (all_below (arc_text graph.now event) (length graph.now.arcs)) }
{
    let _event = event;
    for arc in start..end {
        put_target(graph, arc, pen);
    }
}

// Writes what stands for an arc on the line of its source.
fn put_target<P: Pen>(graph: &Marked, arc: usize, pen: &mut P)
    requires { arc < length graph.now.arcs }
    ensures { Puts (P.writing pen.old) (P.writing pen.new) (target_text graph.now arc) }
{
    let arcs = graph.arcs();
    let target = arcs[arc].target;
    pen.put(b" ");
    if is_further(graph, arc) {
        put_place(arc, pen);
        return;
    }
    put_event(graph, target, pen);
}

/// Writes the line of an arc's own place, where it has one.
pub fn put_place_line<P: Pen>(graph: &Marked, arc: usize, pen: &mut P)
    requires { arc < length graph.now.arcs }
    ensures { Puts (P.writing pen.old) (P.writing pen.new) (place_line graph.now arc) }
{
    let arcs = graph.arcs();
    let target = arcs[arc].target;
    if !is_further(graph, arc) {
        return;
    }
    put_place(arc, pen);
    pen.put(b" ");
    put_event(graph, target, pen);
    pen.put(b"\n");
}
