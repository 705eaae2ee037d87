//! Lines of what open nodes show.
ghost use Rattle.std.specs.Prelude.{◌≡◌, ◌++◌, decimal};
ghost use Rattle.ds_latch.specs.Node.{number_of};
ghost use Rattle.ds_latch.specs.declared.node.Node.{Node};
ghost use Rattle.ds_latch.specs.Plan.{node_name};
ghost use Rattle.ds_outside.specs.Pen.{Puts};
ghost use Rattle.ds_outside.specs.Writes.{Writes};
ghost use Rattle.ds_rows.specs.Log.{open_text};

use crate::put_values;
use ds_base::{LatchId, Row3};
use ds_latch::Node;
use ds_outside::{OnSink, Pen, Sink, WriteFault};
use itoa::Buffer;

/// Writes the line of an open node, by its number: its name, and the values that it shows, one
/// character a value, `0`, `1` or `x`; a row without values is `-`.
pub fn open_line<O: Sink>(node: LatchId, values: &Row3, out: &mut O) -> Result<(), WriteFault>
    ensures { (n : Node) → number_of n ≡ node → Writes result (O.written out.old)
        (O.written out.new) (O.faults out.old) (O.faults out.new) (open_text n values.now) }
{
    let mut pen = OnSink::new(out);
    put_open_line(node, values, &mut pen);
    pen.finish()
}

/// Writes the line of an open node by a pen: its name, and the values that it shows.
pub fn put_open_line<P: Pen>(node: LatchId, values: &Row3, pen: &mut P)
    ensures { (n : Node) → number_of n ≡ node
        → Puts (P.writing pen.old) (P.writing pen.new) (open_text n values.now) }
{
    put_node(node, pen);
    pen.put(b" open ");
    put_values(values, pen);
    pen.put(b"\n");
}

// Writes the name of a node.
fn put_node<P: Pen>(node: LatchId, pen: &mut P)
    ensures { (n : Node) → number_of n ≡ node → Puts (P.writing pen.old) (P.writing pen.new)
        (node_name n) }
{
    match Node::of(node) {
        Node::In => pen.put(b"IN"),
        Node::Out => pen.put(b"OUT"),
        Node::Master(i) => put_numbered(b"M", i, pen),
        Node::Slave(i) => put_numbered(b"S", i, pen),
    }
}

// Writes a letter and a number.
fn put_numbered<P: Pen>(letter: &[u8], number: u32, pen: &mut P)
    ensures { Puts (P.writing pen.old) (P.writing pen.new) (letter.now ++ decimal number) }
{
    let mut buffer = Buffer::new();
    pen.put(letter);
    pen.put(buffer.format(number).as_bytes());
}
