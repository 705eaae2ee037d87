//! Why lines are no log that can be fired.
use ds_base::{ArcId, Name, Refusal};
use ds_lines::At;

/// What is wrong with a line, in the order in which the kinds are looked for.
#[derive(Drop)]
pub enum ReplayKind {
    /// It is not two words, the second one to ten digits.
    BadWord,
    /// Its first word is no event.
    UnknownEvent(Name),
    /// Its number is not one more than the firings of the event before it.
    WrongTurn,
    /// The event has fired as often as it may.
    OverLimit,
    /// The least arc into the event that lacks a token.
    NotEnabled(ArcId),
}

/// The first fault of a log.
pub type ReplayFault = At<ReplayKind>;

/// Why a log is not replayed: its first fault, or want of memory.
pub type ReplayRefusal = Refusal<ReplayFault>;
