//! Texts of marked graphs that are read.
ghost use Rattle.std.specs.Prelude.{◌≡◌};

use ds_astg::{AstgKind, read};
use ds_base::Refusal;
use ds_lines::lines;
use ds_marked::{Arc, Event, Kind, Marked};
use std::alloc::{AllocError, Global};

// The graph of a text, where it has one.
fn graph_of(alloc: Global, text: &[u8]) -> Option<Marked> {
    let lines = lines(alloc, text).ok()?;
    read(alloc, &lines).ok()
}

// The line of a text's first fault, 0 where there is none; none where memory is lacking.
fn fault_line(alloc: Global, text: &[u8]) -> Option<u64> {
    let lines = lines(alloc, text).ok()?;
    match read(alloc, &lines) {
        Ok(_) => Some(0),
        Err(Refusal::Fault(fault)) => Some(fault.line),
        Err(Refusal::Memory) => None,
    }
}

#[test]
fn a_text_has_its_graph(rt: HostRuntime) {
    let text = b".inputs a\n.outputs b\n.graph\na+ p b+\np b+\nb+ a+\n.marking { p <b+,a+>=2 }\n";
    let arcs = [Arc::of(0, 2, 0), Arc::of(0, 2, 1), Arc::of(2, 0, 2)];
    let Some(graph) = graph_of(rt.alloc(), text) else {
        panic!(rt; "no graph");
    };
    assert!(rt; graph.events().len() == 4 && graph.arcs() == arcs.as_slice());
}

#[test]
fn graph_faults_have_their_lines(rt: HostRuntime) {
    let alloc = rt.alloc();
    let ended = fault_line(alloc, b".inputs a\n.graph\na+ a-\n.end\na+ b+\n");
    let unknown = fault_line(alloc, b".inputs a\n.graph\na+ b+\n");
    assert!(rt; ended == Some(0) && unknown == Some(3));
    let open = fault_line(alloc, b".inputs a\n.graph\n\\\na+ p\n.marking {\n");
    let place = fault_line(alloc, b".inputs a\n.graph\na+ p\n.marking { p }\n");
    assert!(rt; open == Some(5) && place == Some(3));
}

// The kind of a fault, and its word.
fn said(kind: &AstgKind) -> (&'static [u8], &[u8]) {
    match kind {
        AstgKind::Unsupported(word) => (b"unsupported command", word.as_slice()),
        AstgKind::BadWord(word) => (b"bad word", word.as_slice()),
        AstgKind::Instance(word) => (b"instance", word.as_slice()),
        AstgKind::UnknownSignal(word) => (b"unknown signal", word.as_slice()),
        AstgKind::NotMarkedGraph(word) => (b"not a marked graph", word.as_slice()),
        AstgKind::BadMarking(word) => (b"bad marking", word.as_slice()),
        AstgKind::TooMany(_) => (b"too many", b""),
    }
}

// Whether a text's first fault has this line, kind and word.
fn has_fault(alloc: Global, text: &[u8], line: u64, kind: &[u8], word: &[u8]) -> bool {
    let Ok(lines) = lines(alloc, text) else {
        return false;
    };
    match read(alloc, &lines) {
        Err(Refusal::Fault(fault)) => {
            let (is, of) = said(&fault.kind);
            fault.line == line && is == kind && of == word
        }
        _ => false,
    }
}

// Whether there are three events, of which the first is the dummy `e`, and the second a rise.
fn begin_with_dummy(events: &[Event]) -> bool {
    events.len() == 3
        && events[0].kind == Kind::Dummy
        && events[0].signal.as_slice() == b"e".as_slice()
        && events[1].kind == Kind::Rise
}

#[test]
fn a_dummy_is_one_event(rt: HostRuntime) {
    let text = b".dummy e\n.inputs a\n.graph\na+ e\ne a-\na- a+\n.marking { <a+,e>=2 <a-,a+> }\n";
    let arcs = [Arc::of(0, 2, 0), Arc::of(1, 0, 2), Arc::of(2, 1, 1)];
    let Some(graph) = graph_of(rt.alloc(), text) else {
        panic!(rt; "no graph");
    };
    assert!(rt; begin_with_dummy(graph.events()) && graph.arcs() == arcs.as_slice());
}

#[test]
fn a_name_is_declared_once_and_before_its_use(rt: HostRuntime) {
    let alloc = rt.alloc();
    let signal = b".outputs M0\n.dummy M0\n";
    let dummy = b".dummy M0\n.outputs M0\n";
    let once = has_fault(alloc, signal, 2, b"bad word", b"M0")
        && has_fault(alloc, dummy, 2, b"bad word", b"M0");
    assert!(rt; once && has_fault(alloc, b".dummy f e+\n", 1, b"bad word", b"e+"));
    let dummy = b".inputs a\n.graph\na+ e\ne a-\n.dummy e\n";
    let signal = b".inputs a\n.graph\na+ e\ne a-\n.outputs f e\n";
    let late = has_fault(alloc, dummy, 5, b"bad word", b"e");
    assert!(rt; late && has_fault(alloc, signal, 5, b"bad word", b"e"));
}

#[test]
fn a_dummy_has_no_sign_and_no_instance(rt: HostRuntime) {
    let alloc = rt.alloc();
    let signed = has_fault(
        alloc,
        b".dummy e\n.graph\ne e+\n",
        3,
        b"unknown signal",
        b"e+",
    );
    let numbered = has_fault(alloc, b".dummy e\n.graph\ne e/1\n", 3, b"instance", b"e/1");
    let marked = b".dummy e\n.graph\ne e\n.marking { e }\n";
    let is_marked = has_fault(alloc, marked, 4, b"bad marking", b"e");
    assert!(rt; signed && numbered && is_marked);
}

// A line that declares so many signals.
fn signals(alloc: Global, count: u32) -> Result<Vec<u8>, AllocError> {
    let mut text = Vec::from_slice(alloc, b".inputs")?;
    for i in 0..count {
        text.extend_from_slice(b" s")?;
        for place in 0_u32..4 {
            text.push(b'a' + ((i >> (4 * place)) % 16) as u8)?;
        }
    }
    Ok(text)
}

// Whether all signals but one may be there beside a dummy, and no more beside another.
fn are_counted(alloc: Global) -> Result<bool, AllocError> {
    let mut text = signals(alloc, 65_535)?;
    text.extend_from_slice(b"\n.dummy e\n")?;
    let most = fault_line(alloc, &text) == Some(0);
    text.extend_from_slice(b".dummy e f\n")?;
    Ok(most && has_fault(alloc, &text, 3, b"too many", b""))
}

#[test]
fn dummies_count_as_signals(rt: HostRuntime) {
    assert!(rt; matches!(are_counted(rt.alloc()), Ok(true)));
}
