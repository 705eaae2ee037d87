//! The current line of a `Filling`: what is kept of it, and the row that it gives.
ghost use Rattle.std.specs.Prelude.{◌≡◌, ◌≤◌, ◌<◌, ◌+◌, ◌-◌, ◌∷◌, false, ◌++◌, [], length, OnOk};
ghost use Rattle.std.specs.Prelude.{MatchResult};
ghost use Rattle.ds_lines.specs.Line.{is_hash, joins, words_in};
ghost use Rattle.std.specs.List.{list_any};
ghost use Rattle.ds_stream.specs.Alike.{IsFull, IsLike};
ghost use Rattle.ds_stream.specs.Filling.{TakesLine, IsLater};
ghost use Rattle.ds_stream.specs.Word.{GivesRow};

use crate::NextFault;
use crate::filling::Filling;
use crate::word::{fault_of, row_of};
use ds_base::Row3;
use ds_lines::{At, blank, trim};
use std::alloc::Global;

impl Filling {
    /// The next physical line is joined to the current one.
    pub(crate) fn joins(&self) -> bool
        ensures { result ≡ joins self.now.line }
    {
        self.joined || trim(&self.line).1
    }

    /// A blank stands for the end of the current physical line.
    pub(crate) fn join(&mut self) -> Result<(), NextFault>
        ensures ok { OnOk result (IsLike self.old.width [] self.new.line
            (words_in self.old.line) []) }
        ensures same { MatchResult result (λ done. self.new ≡ record self.old {
          line = self.new.line;
        }) (λ why. why ≡ NextFault.Memory) }
    {
        let (kept, _) = trim(&self.line);
        self.line.truncate(kept);
        self.joined = false;
        self.comment = false;
        self.keep(b' ')
    }

    /// Keeps a byte of the current line if it matters.
    pub(crate) fn keep(&mut self, byte: u8) -> Result<(), NextFault>
        requires plain { list_any is_hash (self.old.line ++ byte ∷ []) ≡ false }
        ensures ok { OnOk result (IsLike self.old.width [] self.new.line
            [] (self.old.line ++ byte ∷ [])) }
        ensures same { MatchResult result (λ done. self.new ≡ record self.old {
          line = self.new.line;
        }) (λ why. why ≡ NextFault.Memory) }
    {
        if self.line.len() > self.width.max(1) {
            self.tell(byte);
            Ok(())
        } else if self.line.is_empty() && blank(byte) {
            Ok(())
        } else {
            self.line.push(byte)?;
            Ok(())
        }
    }

    // Notes a byte behind a full line.
    fn tell(&mut self, byte: u8)
        requires plain { list_any is_hash (self.old.line ++ byte ∷ []) ≡ false }
        requires full { IsFull self.old.width self.old.line }
        ensures like { IsLike self.old.width [] self.new.line [] (self.old.line ++ byte ∷ []) }
        ensures same { self.new ≡ record self.old { line = self.new.line } }
    {
        if byte == b'\\' {
            self.joined = true;
        } else if !blank(byte) {
            let last = self.line.len() - 1;
            self.line[last] = byte;
            self.joined = false;
        }
    }

    /// The current line ends: its row is given, and the next line begins.
    pub(crate) fn take_line(&mut self, alloc: Global) -> Result<(), NextFault>
        requires some { 0 < self.old.missing }
        requires near { self.old.place ≤ 281474976710656 }
        ensures takes { TakesLine result self.old self.new }
        ensures same { OnOk result (IsLater self.old self.new) }
        ensures begins { OnOk result ((self.new.first ≡ self.old.lines + 1)
            × (self.new.line ≡ []) × (self.new.place ≡ self.old.place)
            × (self.new.lines ≡ self.old.lines)) }
    {
        match self.row(alloc) {
            Err(why) => Err(why),
            Ok(None) => {
                self.begin_line();
                Ok(())
            }
            Ok(Some(row)) => {
                self.give(row)?;
                self.begin_line();
                Ok(())
            }
        }
    }

    // The row of the current line, if it has words.
    fn row(&self, alloc: Global) -> Result<Option<Row3>, NextFault>
        ensures { GivesRow self.now.most self.now.width self.now.seen self.now.first
            (words_in self.now.line) result }
    {
        let (kept, _) = trim(&self.line);
        if kept == 0 {
            return Ok(None);
        }
        let line = &self.line[..kept];
        if let Some(kind) = fault_of(self.most, self.seen, self.width, line) {
            let line = self.first;
            return Err(NextFault::Vector(At { line, kind }));
        }
        let row = row_of(alloc, self.width, line)?;
        Ok(Some(row))
    }

    /// Gives the row of the line that ends here.
    pub(crate) fn give(&mut self, row: Row3) -> Result<(), NextFault>
        requires some { 0 < self.old.missing }
        requires few { self.old.seen < self.old.most }
        requires width { length row ≡ self.old.width }
        ensures { MatchResult result (λ done. self.new ≡ record self.old {
          rows = self.old.rows ++ row ∷ [];
          seen = self.old.seen + 1;
          missing = self.old.missing - 1;
          behind = record { place = self.old.place; lines = self.old.lines };
        }) (λ why. why ≡ NextFault.Memory) }
    {
        self.rows.push(row)?;
        self.seen += 1;
        self.missing -= 1;
        self.behind_place = self.place;
        self.behind_lines = self.lines;
        Ok(())
    }

    /// The next line begins here.
    pub(crate) fn begin_line(&mut self)
        ensures { self.new ≡ record self.old { first = self.old.lines + 1; line = [] } }
    {
        self.line.clear();
        self.joined = false;
        self.comment = false;
        self.first = self.lines + 1;
    }
}
