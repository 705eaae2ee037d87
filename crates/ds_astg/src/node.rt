//! What a word of the graph part stands for.
ghost use Rattle.std.specs.Prelude.{◌≡◌, Ok, MatchResult};
ghost use Rattle.ds_base.specs.Refusal.{RefusesAs};
ghost use Rattle.ds_astg.specs.Node.{node_of_word as node_in};
ghost use Rattle.ds_astg.specs.Keys.{node_seen};

use crate::fault::AstgKind;
use crate::signals::Signals;
use crate::word::{has_reserved, has_slash, is_signed};
use ds_base::Refusal;
use ds_lines::name;
use std::alloc::Global;

/// An event, by its number, or a place, by its name.
#[derive(Clone, Copy)]
pub enum Node<'a> {
    Event(u32),
    Place(&'a [u8]),
}

/// What a word stands for, or its fault.
pub fn node_of<'a>(
    alloc: Global,
    signals: &Signals<'a>,
    word: &'a [u8],
) -> Result<Node<'a>, Refusal<AstgKind>>
    ensures { MatchResult result
        (λ n. node_in signals.now word.now ≡ Ok (node_seen n))
        (λ e. RefusesAs e (node_in signals.now word.now)) }
{
    if has_slash(word) {
        return Err(Refusal::Fault(AstgKind::Instance(name(alloc, word)?)));
    }
    if has_reserved(word) {
        return Err(Refusal::Fault(AstgKind::BadWord(name(alloc, word)?)));
    }
    match signals.event(word) {
        Some(event) => Ok(Node::Event(event)),
        None if is_signed(word) => Err(Refusal::Fault(AstgKind::UnknownSignal(name(alloc, word)?))),
        None => Ok(Node::Place(word)),
    }
}
