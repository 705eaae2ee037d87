//! Graphs that are written: two arcs with the same ends, and signals that are not the graph's own.
ghost use Rattle.std.specs.Prelude.{◌≡◌, IfOk, length};

use ds_astg::{read, write};
use ds_base::{OutOfMemory, Seq};
use ds_lines::lines;
use ds_marked::{Arc, Event, Kind, Marked};
use ds_outside::MemorySink;
use std::alloc::{AllocError, Global};

fn graph(alloc: Global) -> Result<Marked, OutOfMemory>
    ensures { IfOk result (λ g. length g.events ≡ 2) }
{
    let mut events = Seq::new(alloc);
    events.push(event(alloc, Kind::Rise)?)?;
    events.push(event(alloc, Kind::Fall)?)?;
    let arcs = [Arc::of(1, 0, 1), Arc::of(0, 1, 2), Arc::of(0, 1, 0)];
    Marked::new(alloc, events, Vec::from_array(alloc, arcs)?)
}

fn event(alloc: Global, kind: Kind) -> Result<Event, OutOfMemory>
    ensures { IfOk result (λ e. e.kind ≡ kind) }
{
    let mut signal = Seq::new(alloc);
    signal.push(b'a')?;
    Ok(Event { signal, kind })
}

const TEXT: &[u8] = b".model m
.outputs a
.graph
a+ a- p1
a- a+
p1 a-
.marking { p1=2 <a-,a+> }
.end
";

// Whether this is written of a graph, where so many signals are its own.
fn writes(alloc: Global, graph: &Marked, own: u32, want: &[u8]) -> bool {
    let Ok(mut sink) = MemorySink::with_room(alloc, 100) else {
        return false;
    };
    write(b"m", own, graph, &mut sink).is_ok() && sink.bytes() == want
}

#[test]
fn a_second_arc_with_the_same_ends_is_a_place(rt: HostRuntime) {
    let Ok(graph) = graph(rt.alloc()) else {
        panic!(rt; "memory");
    };
    assert!(rt; writes(rt.alloc(), &graph, 1, TEXT));
}

// The lines behind those of two signals.
const REST: &str = ".graph
a+ b+
a- b-
b+ a-
b- a+
.marking { <b-,a+> }
.end
";

// Whether a text is written again of the graph for which it stands.
fn is_written_again(alloc: Global, text: &[u8], own: u32) -> bool {
    let Ok(lines) = lines(alloc, text) else {
        return false;
    };
    match read(alloc, &lines) {
        Ok(graph) => writes(alloc, &graph, own, text),
        Err(_) => false,
    }
}

// Whether two signals are declared so, where so many are the graph's own.
fn are_declared(alloc: Global, own: u32, declared: &str) -> Result<bool, AllocError> {
    let text = format!(in alloc; ".model m\n{declared}{REST}")?;
    Ok(is_written_again(alloc, text.as_bytes(), own))
}

#[test]
fn further_signals_are_internal(rt: HostRuntime) {
    let alloc = rt.alloc();
    let both = are_declared(alloc, 0, ".outputs\n.internal a b\n");
    let one = are_declared(alloc, 1, ".outputs a\n.internal b\n");
    assert!(rt; matches!((both, one), (Ok(true), Ok(true))));
    let none = are_declared(alloc, 2, ".outputs a b\n");
    let past = are_declared(alloc, 3, ".outputs a b\n");
    assert!(rt; matches!((none, past), (Ok(true), Ok(true))));
}
