//! Why a text stands for no graph.
use ds_base::{Limit, Name, Refusal};
use ds_lines::At;

/// What is wrong with a word of a line.
#[derive(Drop)]
pub enum AstgKind {
    /// A command that is not read.
    Unsupported(Name),
    /// A word that is neither a command, a signal, an event nor a place; a source without targets;
    /// `.model` where it stands twice or not before one word.
    BadWord(Name),
    /// A word with a `/`.
    Instance(Name),
    /// An event of a signal that no earlier line declares.
    UnknownSignal(Name),
    /// A place before a place; a place with a second source or target, or without one.
    NotMarkedGraph(Name),
    /// An entry for no place, for a place that has one, or with a bad number; `.marking` where it
    /// stands twice or has not both braces.
    BadMarking(Name),
    /// A signal or a place more than there may be.
    TooMany(Limit),
}

/// The first fault of a text.
pub type AstgFault = At<AstgKind>;

/// Why a text is not read: its first fault, or want of memory.
pub type AstgRefusal = Refusal<AstgFault>;
