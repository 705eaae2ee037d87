//! A `Filling`: vectors that are being read, what is kept of them, and how much to read next. Its
//! other methods stand in bytes.rt and current_line.rt.
ghost use Rattle.std.specs.Prelude.{◌≡◌, ◌≤◌, ◌<◌, ◌+◌, []};
ghost use Rattle.ds_stream.specs.Filling.{AreBefore};

use crate::VectorReader;
use ds_base::{Row3, Seq};
use ds_design::Vectors;
use std::alloc::Global;
use std::marker::Model;

/// How many bytes a file of vectors may have.
pub(crate) const LONGEST: u64 = 281_474_976_710_656;

/// The rows that are read, and the current line. `line` has bytes that mean what the current line
/// has so far, at most the width and one (two for width 0): blanks at its front are left out; what
/// stands behind a full line is told by its last byte alone, which no longer ends it, and by
/// `joined`, which is a `\` behind all of them. A blank stands where physical lines are joined.
///
/// `seen` vectors were given so far, and `missing` are still wanted. `place` and `lines` are those
/// of the next byte, `behind_place` and `behind_lines` those behind the last line that gave a row,
/// where a reader stands; `first` is the number of the current line. `comment` says that a `#`
/// stands in the current physical line.
#[derive(Drop)]
pub(crate) struct Filling {
    pub(crate) width: usize,
    pub(crate) most: u64,
    pub(crate) seen: u64,
    pub(crate) missing: usize,
    pub(crate) rows: Seq<Row3>,
    pub(crate) behind_place: u64,
    pub(crate) behind_lines: u64,
    pub(crate) first: u64,
    pub(crate) line: Vec<u8>,
    pub(crate) joined: bool,
    pub(crate) comment: bool,
    pub(crate) place: u64,
    pub(crate) lines: u64,
}

impl Model for Filling {
    ghost use Rattle.std.specs.Prelude.{◌≡◌, ◌≤◌, ◌<◌, ◌+◌, length, true, All};
    ghost use Rattle.ds_stream.specs.Alike.{IsBegun, IsFull, told_line};
    ghost use Rattle.ds_stream.specs.Filling.{Filled};

    ghost Value = { Filled };

    ghost view = { λ f. record {
      width = f.width;
      most = f.most;
      seen = f.seen;
      missing = f.missing;
      rows = f.rows;
      behind = record { place = f.behind_place; lines = f.behind_lines };
      first = f.first;
      line = told_line f.comment f.joined f.line.items;
      place = f.place;
      lines = f.lines;
    } };

    ghost invariant = { λ f. IsBegun f.line.items × (f.place ≤ 281474976710656)
        × (f.lines ≤ f.place + f.seen + 1) × (f.behind_place ≤ 281474976710656)
        × (f.behind_lines ≤ f.behind_place + f.seen) × (f.seen ≤ f.most) × (f.most < 4294967296)
        × (length f.rows + f.missing ≤ 65536) × All (λ row. length row ≡ f.width) f.rows
        × (f.joined ≡ true → IsFull f.width f.line.items) };
}

impl Filling {
    /// Nothing is read yet of so many vectors behind these numbers.
    pub(crate) fn begin(alloc: Global, reader: &VectorReader, missing: usize) -> Self
        requires { missing ≤ 65536 }
        ensures bounds { result.lines ≤ result.place + result.seen }
        ensures value { result ≡ record {
          width = reader.now.width;
          most = reader.now.most;
          seen = reader.now.given;
          missing = missing;
          rows = [];
          behind = reader.now.behind;
          first = reader.now.behind.lines + 1;
          line = [];
          place = reader.now.behind.place;
          lines = reader.now.behind.lines;
        } }
    {
        Filling {
            width: reader.width(),
            most: reader.most(),
            seen: reader.given(),
            missing,
            rows: Seq::new(alloc),
            behind_place: reader.place(),
            behind_lines: reader.lines(),
            first: reader.lines() + 1,
            line: Vec::new(alloc),
            joined: false,
            comment: false,
            place: reader.place(),
            lines: reader.lines(),
        }
    }

    /// How many vectors are still wanted.
    pub(crate) fn missing(&self) -> usize
        ensures { result ≡ self.now.missing }
    {
        self.missing
    }

    /// The place of the next byte.
    pub(crate) fn place(&self) -> u64
        ensures value { result ≡ self.now.place }
        ensures few { result ≤ 281474976710656 }
    {
        self.place
    }

    /// How many bytes to read next: no more than the vectors that are missing have at least, so
    /// that none is read behind the last of them; whole lines, where they are many.
    pub(crate) fn ask(&self) -> usize
        requires { 0 < self.now.missing }
        ensures some { 0 < result }
        ensures few { result ≤ 65536 }
        ensures before { AreBefore self.now result }
    {
        let least = self.least();
        if least <= 65536 {
            return least;
        }
        let unit = self.width.max(1).saturating_add(1);
        let rest = unit.saturating_sub(self.line.len()).max(1);
        if unit <= 65536 {
            65536 - (65536 - rest) % unit
        } else {
            65536
        }
    }

    // How many bytes the vectors that are missing have at least, or one.
    fn least(&self) -> usize
        requires { 0 < self.now.missing }
        ensures some { 0 < result }
        ensures before { (n : _) → n ≤ result → AreBefore self.now n }
    {
        let unit = self.width.max(1).saturating_add(1);
        let rest = unit.saturating_sub(self.line.len());
        let others = (self.missing - 1).saturating_mul(unit);
        others.saturating_add(rest.saturating_sub(1)).max(1)
    }

    /// The reader behind these rows, and the rows.
    pub(crate) fn finish(self) -> (VectorReader, Vectors)
        ensures reader { result.0 ≡ record {
          width = self.width;
          most = self.most;
          given = self.seen;
          behind = self.behind;
        } }
        ensures rows { result.1 ≡ record { width = self.width; rows = self.rows } }
    {
        let Filling {
            width,
            most,
            seen,
            missing: _,
            rows,
            behind_place,
            behind_lines,
            first: _,
            line: _,
            joined: _,
            comment: _,
            place: _,
            lines: _,
        } = self;
        let reader = VectorReader::at(width, most, seen, behind_place, behind_lines);
        (reader, Vectors::of(width, rows))
    }
}
