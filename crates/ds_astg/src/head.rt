//! What a line is.
ghost use Rattle.std.specs.Prelude.{◌≡◌};
ghost use Rattle.ds_astg.specs.Line.{graph_head_of as head_in, is_declaration as declares};
ghost use Rattle.ds_astg.specs.Read.{ends as ends_in};
ghost use Rattle.std.specs.Str.{bytes_eq};

use crate::word::first_byte;

/// What a line is, by its first word.
#[derive(Clone, Copy, Debug, PartialEq, Eq)]
pub enum Head {
    /// A word without a dot.
    Body,
    /// `.model`.
    Model,
    /// `.inputs`, `.outputs` and `.internal`.
    Signals,
    /// `.dummy`.
    Dummies,
    /// `.graph`.
    Graph,
    /// `.marking`.
    Marking,
    /// `.end`.
    End,
    /// Any other command.
    Unknown,
}

/// What a line with this first word is.
#[tactic(auto, unfolding(crate::specs::Line::graph_head_of))]
pub fn head_of(word: &[u8]) -> Head
    ensures { result ≡ head_in word.now }
{
    if first_byte(word) != b'.' {
        Head::Body
    } else if is_declaration(word) {
        Head::Signals
    } else if is(word, b".dummy") {
        Head::Dummies
    } else if is(word, b".model") {
        Head::Model
    } else if is(word, b".graph") {
        Head::Graph
    } else if is(word, b".marking") {
        Head::Marking
    } else if is(word, b".end") {
        Head::End
    } else {
        Head::Unknown
    }
}

// Whether signals are declared by this word.
#[tactic(auto, unfolding(crate::specs::Line::is_declaration))]
fn is_declaration(word: &[u8]) -> bool
    ensures { result ≡ declares word.now }
{
    is(word, b".inputs") || is(word, b".outputs") || is(word, b".internal")
}

// Whether two words are the same.
fn is(word: &[u8], text: &[u8]) -> bool
    ensures { result ≡ bytes_eq word.now text.now }
{
    word == text
}

/// Whether nothing is read behind a line.
pub fn ends(head: Head) -> bool
    ensures { result ≡ ends_in head }
{
    match head {
        Head::End => true,
        Head::Body | Head::Model | Head::Signals | Head::Dummies => false,
        Head::Graph | Head::Marking | Head::Unknown => false,
    }
}
