//! A pattern, along which names are read byte by byte.
ghost use Rattle.std.specs.Prelude.{◌≡◌, ◌<◌, ◌≤◌, ◌+◌, ◌∷◌, ◌++◌, [], List, ℕ, length, drop, IfOk};
ghost use Rattle.std.specs.Prelude.{IfNone, IfSome};
ghost use Rattle.ds_rows.specs.Nets.{net_text};
ghost use Rattle.ds_groups.specs.Match.{has_form as fits};
ghost use Rattle.ds_groups.specs.Stand.{goes_on, matches_behind, IsBehindStars, IsPiece, IsNoStar};
ghost use Rattle.ds_groups.specs.Stand.{IsStand};

use crate::falls::{Piece, falls_of, held_behind};
use crate::stand::Stand;
use crate::tail::{Tail, may_have, tail_of};
use ds_design::Net;
use itoa::Buffer;
use std::alloc::{AllocError, Global};
use std::marker::Model;

/// A word as a pattern, for each of its places how much is held there without the first byte of
/// the piece, and its tail, by which most names are refused. Contracts see the word.
pub(crate) struct Pattern<'a> {
    word: &'a [u8],
    falls: Vec<usize>,
    tail: Tail<'a>,
}

impl Drop for Pattern<'_> {
    fn drop(self) {
        let Pattern {
            word: _,
            falls: _,
            tail: _,
        } = self;
    }
}

impl<'a> Model for Pattern<'a> {
    ghost use Rattle.std.specs.Prelude.{◌≡◌, ◌+◌, List, ℕ, length};
    ghost use Rattle.ds_groups.specs.Stand.{AreFalls};
    ghost use Rattle.ds_groups.specs.Tail.{IsTail};

    ghost Value = { List ℕ };

    ghost view = { λ p. p.word.now };

    ghost invariant = { λ p. AreFalls p.word.now p.falls.items (length p.word.now + 1)
        × (length p.falls.items ≡ length p.word.now + 1) × IsTail p.word.now p.tail };
}

impl<'a> Pattern<'a> {
    /// Of a word.
    pub(crate) fn of(alloc: Global, word: &'a [u8]) -> Result<Self, AllocError>
        ensures { IfOk result (λ p. p ≡ word.now) }
    {
        let falls = falls_of(alloc, word)?;
        let tail = tail_of(word);
        Ok(Pattern { word, falls, tail })
    }

    /// Whether the name of a net matches.
    pub(crate) fn matches(&self, net: &Net) -> bool
        ensures { result ≡ fits self.now (net_text net.now) }
    {
        if net.copy == 0 && !may_have(&self.tail, net.name.as_slice()) {
            return false;
        }
        self.read_along(net)
    }

    // Whether the name of a net matches, byte by byte. Kept apart, it leaves `matches` small enough
    // to be inlined into loops over registers.
    #[inline(never)]
    fn read_along(&self, net: &Net) -> bool
        ensures { result ≡ fits self.now (net_text net.now) }
    {
        let mut stand = self.fixed(0);
        if net.copy != 0 {
            let mut buffer = Buffer::new();
            stand = self.walk(stand, buffer.format(net.copy).as_bytes());
            stand = self.walk(stand, b"/");
        }
        stand = self.walk(stand, net.name.as_slice());
        self.ends(stand)
    }

    // Up to a place of the front.
    fn fixed(&self, at: usize) -> Stand
        requires within { at ≤ length self.now }
        ensures stand { IsStand self.now result }
        ensures same { (rest : List ℕ) → goes_on self.now result rest
            ≡ fits (drop at self.now) rest }
    {
        match self.behind_stars(at) {
            None => Stand::Fixed(at),
            Some(behind) => Stand::Floating(behind, 0),
        }
    }

    // With so many bytes of a piece held.
    fn floating(&self, piece: Piece) -> Stand
        requires piece { IsPiece self.now piece.start piece.held }
        requires start { 0 < piece.start }
        ensures stand { IsStand self.now result }
        ensures same { (rest : List ℕ) → goes_on self.now result rest
            ≡ matches_behind (drop piece.start self.now) piece.held rest }
    {
        match self.behind_stars(self.end_of(piece)) {
            None => Stand::Floating(piece.start, piece.held),
            Some(behind) => Stand::Floating(behind, 0),
        }
    }

    // The place behind what is held.
    fn end_of(&self, piece: Piece) -> usize
        requires { piece.start + piece.held ≤ length self.now }
        ensures { result ≡ piece.start + piece.held }
    {
        let rest = self.word.len() - piece.start;
        self.word.len() - (rest - piece.held)
    }

    // Where stars stand at a place, the place behind them.
    fn behind_stars(&self, from: usize) -> Option<usize>
        requires { from ≤ length self.now }
        ensures some { IfSome result (IsBehindStars self.now from) }
        ensures none { IfNone result (IsNoStar self.now from) }
    {
        let mut at = from;
        'skipping: while at < self.word.len() && self.word[at] == b'*' {
            at += 1;
        }
        if at == from { None } else { Some(at) }
    }

    // Behind one byte more.
    fn step(&self, stand: Stand, byte: u8) -> Stand
        requires { IsStand self.now stand }
        ensures stand { IsStand self.now result }
        ensures same { (rest : List ℕ) → goes_on self.now result rest
            ≡ goes_on self.now stand (byte ∷ rest) }
    {
        match stand {
            Stand::Lost => Stand::Lost,
            Stand::Fixed(at) => self.fixed_behind(at, byte),
            Stand::Floating(start, held) => self.floating_behind(Piece { start, held }, byte),
        }
    }

    // Behind one byte more from a place of the front.
    fn fixed_behind(&self, at: usize, byte: u8) -> Stand
        requires within { at ≤ length self.now }
        requires plain { IsNoStar self.now at }
        ensures stand { IsStand self.now result }
        ensures same { (rest : List ℕ) → goes_on self.now result rest
            ≡ fits (drop at self.now) (byte ∷ rest) }
    {
        if at < self.word.len() && self.word[at] == byte {
            self.fixed(at + 1)
        } else {
            Stand::Lost
        }
    }

    // Behind one byte more in a piece.
    fn floating_behind(&self, piece: Piece, byte: u8) -> Stand
        requires piece { IsPiece self.now piece.start piece.held }
        requires start { 0 < piece.start }
        requires plain { IsNoStar self.now (piece.start + piece.held) }
        ensures stand { IsStand self.now result }
        ensures same { (rest : List ℕ) → goes_on self.now result rest
            ≡ matches_behind (drop piece.start self.now) piece.held (byte ∷ rest) }
    {
        let held = held_behind(self.word, self.falls.as_slice(), piece, byte);
        let start = piece.start;
        self.floating(Piece { start, held })
    }

    // Behind some bytes.
    fn walk(&self, stand: Stand, bytes: &[u8]) -> Stand
        requires { IsStand self.now stand }
        ensures stand { IsStand self.now result }
        ensures same { (rest : List ℕ) → goes_on self.now result rest
            ≡ goes_on self.now stand (bytes.now ++ rest) }
    {
        let mut stand = stand;
        for byte in bytes {
            if stand == Stand::Lost {
                return Stand::Lost;
            }
            stand = self.step(stand, *byte);
        }
        stand
    }

    // Whether a text that ends here matches.
    fn ends(&self, stand: Stand) -> bool
        requires { IsStand self.now stand }
        ensures { result ≡ goes_on self.now stand [] }
    {
        match stand {
            Stand::Lost => false,
            Stand::Fixed(at) => at == self.word.len(),
            Stand::Floating(start, held) => start + held == self.word.len(),
        }
    }
}
