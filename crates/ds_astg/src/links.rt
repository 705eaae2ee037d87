//! A line of the graph part.
ghost use Rattle.std.specs.Prelude.{◌≡◌, ◌<◌, length, Ok, IfErr, OnOk, drop};
ghost use Rattle.ds_base.specs.Refusal.{RefusesAs};
ghost use Rattle.ds_lines.specs.Words.{texts};
ghost use Rattle.ds_astg.specs.Links.{link as link_in, link_word as link_word_in};
ghost use Rattle.ds_astg.specs.Links.{link_words as link_words_in, into_place as into_place_in};
ghost use Rattle.ds_astg.specs.Links.{with_node as with_node_in, with_source as with_source_in};
ghost use Rattle.ds_astg.specs.Links.{with_target as with_target_in, graph_line as graph_line_in};
ghost use Rattle.ds_astg.specs.Keys.{node_seen};
ghost use Rattle.ds_astg.specs.Steps.{IsGraphRefusal};
ghost use Rattle.ds_astg.specs.declared.fault.AstgKind.TheVariants.{NotMarkedGraph};

use crate::fault::AstgKind;
use crate::key::Key;
use crate::node::{Node, node_of};
use crate::place::{Place, may_be};
use crate::places::Places;
use crate::signals::Signals;
use ds_base::Refusal;
use ds_lines::{name, word};
use std::alloc::Global;

// A source, and the number of its line.
#[derive(Clone, Copy)]
struct SourceNode<'a> {
    line: u64,
    node: Node<'a>,
}

// A place by its number, and its name.
#[derive(Clone, Copy)]
struct NumberedPlace<'a> {
    number: usize,
    name: &'a [u8],
}

/// Reads a line of the graph part: a source, and its targets.
pub fn graph_line<'a>(
    alloc: Global,
    signals: &Signals<'a>,
    places: &mut Places<'a>,
    line: u64,
    words: &[&'a [u8]],
) -> Result<(), Refusal<AstgKind>>
    requires { 0 < length words.now }
    ensures ok { OnOk result
        (graph_line_in signals.now line (texts words.now) places.old ≡ Ok places.new) }
    ensures fault { IfErr result
        (λ e. RefusesAs e (graph_line_in signals.now line (texts words.now) places.old)) }
{
    let first = word(words, 0);
    let node = node_of(alloc, signals, first)?;
    if words.len() < 2 {
        return Err(Refusal::Fault(AstgKind::BadWord(name(alloc, first)?)));
    }
    with_node(places, line, node)?;
    link_words(alloc, signals, places, SourceNode { line, node }, words)
}

// From here on a source stands there.
fn with_node<'a>(
    places: &mut Places<'a>,
    line: u64,
    source: Node<'a>,
) -> Result<(), Refusal<AstgKind>>
    ensures ok { OnOk result
        (with_node_in line (node_seen source.entry) places.old ≡ Ok places.new) }
    ensures fault { IfErr result
        (λ e. RefusesAs e (with_node_in line (node_seen source.entry) places.old)) }
{
    match source {
        Node::Event(_) => Ok(()),
        Node::Place(name) => places.add(Key::Named(name), Place::named(line)),
    }
}

// The words behind the first are targets of a source.
fn link_words<'a>(
    alloc: Global,
    signals: &Signals<'a>,
    places: &mut Places<'a>,
    source: SourceNode<'a>,
    words: &[&'a [u8]],
) -> Result<(), Refusal<AstgKind>>
    requires { 0 < length words.now }
    ensures ok { OnOk result
        (link_words_in signals.now source.entry.line (node_seen source.entry.node)
        (drop 1 (texts words.now)) places.old ≡ Ok places.new) }
    ensures fault { IfErr result
        (λ e. RefusesAs e (link_words_in signals.now source.entry.line
        (node_seen source.entry.node)
        (drop 1 (texts words.now)) places.old)) }
{
    for i in 1..words.len() {
        link_word(alloc, signals, places, source, word(words, i))?;
    }
    Ok(())
}

// A word is a target of a source.
fn link_word<'a>(
    alloc: Global,
    signals: &Signals<'a>,
    places: &mut Places<'a>,
    source: SourceNode<'a>,
    word: &'a [u8],
) -> Result<(), Refusal<AstgKind>>
    ensures ok { OnOk result
        (link_word_in signals.now source.entry.line (node_seen source.entry.node) word.now
        places.old
        ≡ Ok places.new) }
    ensures fault { IfErr result
        (λ e. RefusesAs e (link_word_in signals.now source.entry.line
        (node_seen source.entry.node)
        word.now places.old)) }
{
    let target = node_of(alloc, signals, word)?;
    link(alloc, places, source, target)
}

// A source has a target.
fn link<'a>(
    alloc: Global,
    places: &mut Places<'a>,
    source: SourceNode<'a>,
    target: Node<'a>,
) -> Result<(), Refusal<AstgKind>>
    ensures ok { OnOk result
        (link_in source.entry.line (node_seen source.entry.node) (node_seen target.entry) places.old
        ≡ Ok places.new) }
    ensures fault { IfErr result
        (λ e. RefusesAs e (link_in source.entry.line (node_seen source.entry.node)
        (node_seen target.entry)
        places.old)) }
{
    match source.node {
        Node::Event(from) => match target {
            Node::Event(to) => {
                let place = Place::between(source.line, from, to);
                places.add(Key::Between(from, to), place)
            }
            Node::Place(name) => into_place(alloc, places, source.line, from, name),
        },
        Node::Place(name) => match target {
            Node::Event(to) => {
                let number = places.number(Key::Named(name));
                with_target(alloc, places, NumberedPlace { number, name }, to)
            }
            Node::Place(_) => not_marked(alloc, name),
        },
    }
}

// An event is the source of a place.
fn into_place<'a>(
    alloc: Global,
    places: &mut Places<'a>,
    line: u64,
    event: u32,
    name: &'a [u8],
) -> Result<(), Refusal<AstgKind>>
    ensures ok { OnOk result (into_place_in line event name.now places.old ≡ Ok places.new) }
    ensures fault { IfErr result (λ e. RefusesAs e
        (into_place_in line event name.now places.old)) }
{
    places.add(Key::Named(name), Place::named(line))?;
    let number = places.number(Key::Named(name));
    with_source(alloc, places, NumberedPlace { number, name }, event)
}

// The place with a number and a name has this source, and no other.
fn with_source(
    alloc: Global,
    places: &mut Places<'_>,
    named: NumberedPlace<'_>,
    event: u32,
) -> Result<(), Refusal<AstgKind>>
    ensures ok { OnOk result (with_source_in named.entry.number named.entry.name.now event
        places.old ≡ Ok places.new) }
    ensures fault { IfErr result
        (λ e. RefusesAs e (with_source_in named.entry.number named.entry.name.now event
        places.old)) }
{
    let place = places.place(named.number);
    if !may_be(place.source, event) {
        return not_marked(alloc, named.name);
    }
    places.set(named.number, place.from_event(event));
    Ok(())
}

// The place with a number and a name has this target, and no other.
fn with_target(
    alloc: Global,
    places: &mut Places<'_>,
    named: NumberedPlace<'_>,
    event: u32,
) -> Result<(), Refusal<AstgKind>>
    ensures ok { OnOk result (with_target_in named.entry.number named.entry.name.now event
        places.old ≡ Ok places.new) }
    ensures fault { IfErr result
        (λ e. RefusesAs e (with_target_in named.entry.number named.entry.name.now event
        places.old)) }
{
    let place = places.place(named.number);
    if !may_be(place.target, event) {
        return not_marked(alloc, named.name);
    }
    places.set(named.number, place.to_event(event));
    Ok(())
}

// A place is none of a marked graph.
fn not_marked(alloc: Global, word: &[u8]) -> Result<(), Refusal<AstgKind>>
    ensures { IsGraphRefusal (NotMarkedGraph word.now) result }
{
    Err(Refusal::Fault(AstgKind::NotMarkedGraph(name(alloc, word)?)))
}
