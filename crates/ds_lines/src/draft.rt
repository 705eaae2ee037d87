//! Lines that are being read.
ghost use Rattle.std.specs.Prelude.{◌≡◌, ◌<◌, ◌≤◌, ◌+◌, ◌-◌, ◌^◌, ℕ, List, [], ◌∷◌, ◌++◌, map};
ghost use Rattle.std.specs.Prelude.{length, drop, take, IfOk, IfSome, IfNone};
ghost use Rattle.std.specs.List.{slice_split, before_first, position_or_len};
ghost use Rattle.ds_lines.specs.Line.{line_of, words_of, trimmed, is_joined, is_newline};
ghost use Rattle.ds_lines.specs.Draft.{Read, with_rest, is_stop};

use crate::line::{behind, push_line};
use crate::list::Lines;
use crate::span::Span;
use std::alloc::{AllocError, Global};
use std::marker::Model;

/// The lines so far, and the current line. A draft that is refused is given up.
#[derive(Drop)]
pub struct Draft<'a> {
    spans: Vec<Span>,
    words: Vec<&'a [u8]>,
    first: u64,
    start: usize,
    number: u64,
}

impl<'a> Model for Draft<'a> {
    ghost use Rattle.std.specs.Prelude.{◌≤◌, List, map, length, drop, ℕ};
    ghost use Rattle.std.specs.List.{All};
    ghost use Rattle.ds_lines.specs.Draft.{Read};
    ghost use Rattle.ds_lines.specs.Span.{lines_in, IsSpanWithin};

    ghost Value = { Read };

    ghost view = { λ d. record {
      lines = lines_in (map (λ w. w.now) d.words.items) d.spans.items;
      first = d.first;
      words = drop d.start (map (λ w. w.now) d.words.items);
      number = d.number;
    } };

    ghost invariant = { λ d. (d.start ≤ length d.words.items) × All (IsSpanWithin
        (length d.words.items)) d.spans.items };
}

impl<'a> Draft<'a> {
    /// Before all lines.
    pub fn new(alloc: Global) -> Self
        ensures { result ≡ record { lines = []; first = 1; words = []; number = 1 } }
    {
        Draft {
            spans: Vec::new(alloc),
            words: Vec::new(alloc),
            first: 1,
            start: 0,
            number: 1,
        }
    }

    /// Takes the first physical line of a text, and gives the text behind its end, where it has
    /// one.
    pub fn take(&mut self, text: &'a [u8]) -> Result<Option<&'a [u8]>, AllocError>
        requires { self.old.number < 2 ^ 64 - 1 }
        ensures more { IfOk result (λ r. IfSome r (λ behind. with_rest self.new
            (slice_split is_newline behind.now) ≡ with_rest self.old
            (slice_split is_newline text.now))) }
        ensures shorter { IfOk result (λ r. IfSome r (λ behind. length behind.now
            < length text.now)) }
        ensures last { IfOk result (λ r. IfNone r (with_rest self.new [] ≡ with_rest self.old
            (slice_split is_newline text.now))) }
        ensures number { IfOk result (λ _. self.new.number ≡ self.old.number + 1) }
    {
        let (place, joined) = self.take_words(text)?;
        if !joined {
            self.end_line()?;
        }
        Ok(behind(text, place))
    }

    // The words of a text's first physical line are added. How many bytes stand before its end or
    // its comment, and whether it is joined.
    fn take_words(&mut self, text: &'a [u8]) -> Result<(usize, bool), AllocError>
        requires { self.old.number < 2 ^ 64 - 1 }
        ensures read { IfOk result (λ _. self.new ≡ record self.old {
          words = self.old.words
              ++ words_of (trimmed (before_first is_stop text.now));
          number = self.old.number + 1;
        }) }
        ensures place { IfOk result (λ r. r.0 ≡ position_or_len is_stop text.now) }
        ensures joined { IfOk result (λ r. r.1 ≡ is_joined (before_first is_stop text.now)) }
    {
        let (place, joined) = push_line(&mut self.words, text)?;
        self.number += 1;
        Ok((place, joined))
    }

    /// Ends the current line.
    pub fn end_line(&mut self) -> Result<(), AllocError>
        ensures { IfOk result (λ _. self.new ≡ record {
          lines = self.old.lines
              ++ line_of self.old.first self.old.words;
          first = self.old.number;
          words =
              [];
          number = self.old.number;
        }) }
    {
        let end = self.words.len();
        if self.start < end {
            self.spans.push(Span {
                number: self.first,
                start: self.start,
                end,
            })?;
        }
        self.first = self.number;
        self.start = end;
        Ok(())
    }

    /// The lines, if the current one has ended.
    pub fn into_lines(self) -> Lines<'a>
        ensures { result ≡ self.entry.lines }
    {
        let Draft {
            spans,
            words,
            first: _,
            start: _,
            number: _,
        } = self;
        Lines::of(spans, words)
    }
}
