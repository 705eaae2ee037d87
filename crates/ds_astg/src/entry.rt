//! The entries of the marking.
ghost use Rattle.std.specs.Prelude.{◌≡◌, ◌<◌, length};
ghost use Rattle.ds_outside.specs.Pen.{Puts};
ghost use Rattle.ds_astg.specs.Text.{entry_name, entry_text, tokens_text};

use crate::piece::{is_further, put_event, put_place};
use ds_marked::Marked;
use ds_outside::Pen;
use itoa::Buffer;

/// Writes the entry of an arc, where it has tokens.
pub fn put_entry<P: Pen>(graph: &Marked, arc: usize, pen: &mut P)
    requires { arc < length graph.now.arcs }
    ensures { Puts (P.writing pen.old) (P.writing pen.new) (entry_text graph.now arc) }
{
    let arcs = graph.arcs();
    let tokens = arcs[arc].tokens;
    if tokens == 0 {
        return;
    }
    pen.put(b" ");
    put_name(graph, arc, pen);
    put_tokens(tokens, pen);
}

// Writes what stands for an arc in the marking.
fn put_name<P: Pen>(graph: &Marked, arc: usize, pen: &mut P)
    requires { arc < length graph.now.arcs }
    ensures { Puts (P.writing pen.old) (P.writing pen.new) (entry_name graph.now arc) }
{
    let arcs = graph.arcs();
    let source = arcs[arc].source;
    let target = arcs[arc].target;
    if is_further(graph, arc) {
        put_place(arc, pen);
        return;
    }
    pen.put(b"<");
    put_event(graph, source, pen);
    pen.put(b",");
    put_event(graph, target, pen);
    pen.put(b">");
}

// Writes two tokens or more.
fn put_tokens<P: Pen>(tokens: u8, pen: &mut P)
    ensures { Puts (P.writing pen.old) (P.writing pen.new) (tokens_text tokens) }
{
    if tokens < 2 {
        return;
    }
    let mut buffer = Buffer::new();
    pen.put(b"=");
    pen.put(buffer.format(tokens).as_bytes());
}
