//! The text of a graph.
ghost use Rattle.std.specs.Prelude.{◌≡◌, ◌<◌, length};
ghost use Rattle.ds_outside.specs.Pen.{Puts};
ghost use Rattle.ds_outside.specs.Writes.{Writes};
ghost use Rattle.ds_astg.specs.Pieces.{all_below};
ghost use Rattle.ds_astg.specs.Text.{entry_text, event_line, graph_text, place_line};

use crate::entry::put_entry;
use crate::line::{put_event_line, put_place_line};
use crate::signal_lines::put_signal_lines;
use ds_base::EventId;
use ds_marked::Marked;
use ds_outside::{Buffered, Pen, Sink, WriteFault};

/// Appends the text of a graph under a name. So many signals, the first ones, are its own and are
/// declared as outputs; further ones are internal. The text goes through a buffer. Where a write
/// fails, a first part of it is appended.
pub fn write<O: Sink>(name: &[u8], own: u32, graph: &Marked, out: &mut O) -> Result<(), WriteFault>
    ensures { Writes result (O.written out.old) (O.written out.new) (O.faults out.old)
        (O.faults out.new) (graph_text name.now own graph.now) }
{
    let mut pen = Buffered::new(out);
    put_graph(name, own, graph, &mut pen);
    pen.finish()
}

// The same by a pen.
fn put_graph<P: Pen>(name: &[u8], own: u32, graph: &Marked, pen: &mut P)
    ensures { Puts (P.writing pen.old) (P.writing pen.new)
        (graph_text name.now own graph.now) }
{
    pen.put(b".model ");
    pen.put(name);
    pen.put(b"\n");
    put_signal_lines(own, graph.events(), pen);
    pen.put(b".graph\n");
    put_event_lines(graph, pen);
    put_place_lines(graph, pen);
    pen.put(b".marking {");
    put_entries(graph, pen);
    pen.put(b" }\n.end\n");
}

// Writes the lines of the events.
fn put_event_lines<P: Pen>(graph: &Marked, pen: &mut P)
    ensures { Puts (P.writing pen.old) (P.writing pen.new)
        (all_below (event_line graph.now) (length graph.now.events)) }
{
    let count = graph.events().len();
    for event in 0..count {
        put_event_line(graph, EventId::new(event as u32), pen);
    }
}

// Writes the lines of the places of their own.
fn put_place_lines<P: Pen>(graph: &Marked, pen: &mut P)
    ensures { Puts (P.writing pen.old) (P.writing pen.new)
        (all_below (place_line graph.now) (length graph.now.arcs)) }
{
    let count = graph.arcs().len();
    for arc in 0..count {
        put_place_line(graph, arc, pen);
    }
}

// Writes the entries of the arcs with tokens.
fn put_entries<P: Pen>(graph: &Marked, pen: &mut P)
    ensures { Puts (P.writing pen.old) (P.writing pen.new)
        (all_below (entry_text graph.now) (length graph.now.arcs)) }
{
    let count = graph.arcs().len();
    for arc in 0..count {
        put_entry(graph, arc, pen);
    }
}
