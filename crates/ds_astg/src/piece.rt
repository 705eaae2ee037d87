//! Pieces of a text.
ghost use Rattle.std.specs.Prelude.{◌≡◌, ◌<◌, length};
ghost use Rattle.ds_outside.specs.Pen.{Puts};
ghost use Rattle.ds_marked.specs.Log.{text_of_event};
ghost use Rattle.ds_astg.specs.Text.{have_same_ends, is_further as is_further_in, place_name};

use ds_base::EventId;
use ds_marked::{Arc, Marked};
use ds_outside::Pen;
use itoa::Buffer;

/// Writes the event with a number.
pub fn put_event<P: Pen>(graph: &Marked, event: EventId, pen: &mut P)
    requires { event < length graph.now.events }
    ensures { Puts (P.writing pen.old) (P.writing pen.new) (text_of_event graph.now event) }
{
    let text = graph.text(event);
    pen.put(text.name);
    pen.put(text.sign);
}

/// Writes the name of an arc's own place.
pub fn put_place<P: Pen>(arc: usize, pen: &mut P)
    ensures { Puts (P.writing pen.old) (P.writing pen.new) (place_name arc) }
{
    let mut buffer = Buffer::new();
    pen.put(b"p");
    pen.put(buffer.format(arc).as_bytes());
}

/// Whether an arc with the same ends stands before this one.
pub fn is_further(graph: &Marked, arc: usize) -> bool
    requires { arc < length graph.now.arcs }
    ensures { result ≡ is_further_in graph.now arc }
{
    let arcs = graph.arcs();
    if arc == 0 {
        return false;
    }
    same_ends(&arcs[arc - 1], &arcs[arc])
}

// Whether two arcs have the same ends.
fn same_ends(a: &Arc, b: &Arc) -> bool
    ensures { result ≡ have_same_ends a.now b.now }
{
    a.source == b.source && a.target == b.target
}
