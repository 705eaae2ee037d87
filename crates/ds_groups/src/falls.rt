//! How much of a piece of a pattern is still held where its first byte is given up: what a
//! `Pattern` steps by, so that no byte of a text is read twice.
ghost use Rattle.std.specs.Prelude.{◌≡◌, ◌<◌, ◌≤◌, ◌+◌, ◌-◌, ◌==◌, ◌&&◌, ◌∷◌, List, ℕ, length};
ghost use Rattle.std.specs.Prelude.{drop};
ghost use Rattle.std.specs.Prelude.{nat_lt, IfOk, slice_index};
ghost use Rattle.ds_groups.specs.Stand.{matches_behind, AreFalls, Falls, IsPiece, IsNoStar};

use std::alloc::{AllocError, Global};

/// A piece of a pattern, by the place where it starts, and how many of its bytes are held.
#[derive(Clone, Copy)]
pub(crate) struct Piece {
    pub start: usize,
    pub held: usize,
}

/// How many bytes of the piece are held behind one byte more. Bytes that are held are given up
/// from the front until the byte goes on with the piece.
pub(crate) fn held_behind(word: &[u8], falls: &[usize], piece: Piece, byte: u8) -> usize
    requires piece { IsPiece word.now piece.start piece.held }
    requires plain { IsNoStar word.now (piece.start + piece.held) }
    requires falls { AreFalls word.now falls.now (piece.start + piece.held + 1) }
    requires length { piece.start + piece.held < length falls.now }
    ensures piece { IsPiece word.now piece.start result }
    ensures few { result ≤ piece.held + 1 }
    ensures same { (rest : List ℕ) → matches_behind (drop piece.start word.now) result rest
        ≡ matches_behind (drop piece.start word.now) piece.held (byte ∷ rest) }
{
    let mut held = piece.held;
    'falling: while held > 0 && !stands(word, piece.start + held, byte) {
        held = falls[piece.start + held];
    }
    if stands(word, piece.start + held, byte) {
        held + 1
    } else {
        0
    }
}

// Whether this byte stands at a place of a word.
fn stands(word: &[u8], at: usize, byte: u8) -> bool
    ensures { result ≡ nat_lt at (length word.now) && (slice_index word.now at == byte) }
{
    at < word.len() && word[at] == byte
}

// How much is held of the bytes of a piece before a place and that at it, without the first.
fn next_fall(word: &[u8], falls: &[usize], start: usize, at: usize) -> usize
    requires within { at < length word.now }
    requires start { start ≤ at }
    requires piece { IsPiece word.now start (at - start) }
    requires plain { IsNoStar word.now at }
    requires falls { AreFalls word.now falls.now (at + 1) }
    requires length { length falls.now ≡ at + 1 }
    ensures { Falls (drop start word.now) (at - start + 1) result }
{
    if at == start {
        return 0;
    }
    let held = falls[at];
    held_behind(word, falls, Piece { start, held }, word[at])
}

/// For each place of a word, and the place behind it, how much is held there without the first
/// byte of the piece.
pub(crate) fn falls_of(alloc: Global, word: &[u8]) -> Result<Vec<usize>, AllocError>
    ensures falls { IfOk result (λ f. AreFalls word.now f.items (length word.now + 1)) }
    ensures length { IfOk result (λ f. length f.items ≡ length word.now + 1) }
{
    let mut falls = vec![in alloc; 0; 1]?;
    let mut start = 0;
    for at in 0..word.len() {
        if word[at] == b'*' {
            start = at + 1;
            falls.push(0)?;
        } else {
            let fall = next_fall(word, falls.as_slice(), start, at);
            falls.push(fall)?;
        }
    }
    Ok(falls)
}
