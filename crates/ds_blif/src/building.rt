//! What lines stand for, read from the last one to the first: rows wait for their table, and
//! commands for their model.
ghost use Rattle.std.specs.Prelude.{◌≡◌, ◌<◌, length, OnOk};
ghost use Rattle.ds_lines.specs.Words.{texts, word_at};
ghost use Rattle.ds_blif.specs.Head.{head_of as head_of_word};
ghost use Rattle.ds_blif.specs.Parts.{Parts, no_parts, with_row as with_row_of};
ghost use Rattle.ds_blif.specs.Parts.{without_rows as without_rows_of};
ghost use Rattle.ds_blif.specs.Parts.{with_command as with_command_of, with_model as with_model_of};
ghost use Rattle.ds_blif.specs.Parts.{with_head as with_head_of, table_of as table_of_words};
ghost use Rattle.ds_design.specs.declared.blif.Part.TheVariants.{Table as TablePart};

use crate::head::{Head, head_of};
use crate::part::{is_on, latch_of, plane_of, table_of, use_of};
use crate::word::{word_or_none, words_behind};
use ds_base::{OutOfMemory, Seq};
use ds_design::{BlifModel, Command, Part, Word};
use ds_lines::word;
use std::alloc::Global;
use std::marker::Model;
use std::mem::replace;

/// The parts of the lines behind a line, each list from its end.
#[derive(Drop)]
pub struct Building<'a> {
    rows: Vec<Word<'a>>,
    on: bool,
    commands: Vec<Command<'a>>,
    models: Vec<BlifModel<'a>>,
}

impl<'a> Model for Building<'a> {
    ghost use Rattle.std.specs.Prelude.{reverse};
    ghost use Rattle.ds_blif.specs.Parts.{Parts};

    ghost Value = { Parts };

    ghost view = { λ b. record {
      rows = reverse b.rows.items;
      on = b.on;
      commands = reverse b.commands.items;
      models = reverse b.models.items;
    } };
}

impl<'a> Building<'a> {
    /// Of no lines.
    pub fn new(alloc: Global) -> Self
        ensures { result ≡ no_parts }
    {
        Building {
            rows: Vec::new(alloc),
            on: true,
            commands: Vec::new(alloc),
            models: Vec::new(alloc),
        }
    }

    /// A line before these parts. Where memory is refused some part of it may be there.
    pub fn take_line(
        &mut self,
        alloc: Global,
        line: u64,
        words: &'a [&'a [u8]],
    ) -> Result<(), OutOfMemory>
        requires { 0 < length words.now }
        ensures { OnOk result (self.new ≡ with_head_of
            (head_of_word (word_at (texts words.now) 0)) line (texts words.now) self.old) }
    {
        let part = match head_of(word(words, 0)) {
            Head::Row => return self.take_row(plane_of(words), is_on(words)),
            Head::Names => return self.take_table(alloc, line, words),
            Head::Model => return self.take_model(alloc, line, word_or_none(words, 1)),
            Head::End | Head::Unknown => {
                self.leave_rows(alloc);
                return Ok(());
            }
            Head::Skipped => return Ok(()),
            Head::Inputs => Part::Inputs(words_behind(words)),
            Head::Outputs => Part::Outputs(words_behind(words)),
            Head::Clock => Part::Clock(words_behind(words)),
            Head::Latch => Part::Latch(latch_of(words)),
            Head::Subckt => Part::Subckt(use_of(alloc, words)?),
        };
        self.take_command(alloc, line, part)
    }

    /// The models.
    pub fn into_models(mut self) -> Seq<BlifModel<'a>>
        ensures { result ≡ self.entry.models }
    {
        self.models.reverse();
        Seq::of(self.models)
    }

    fn take_row(&mut self, plane: Word<'a>, on: bool) -> Result<(), OutOfMemory>
        ensures { OnOk result (self.new ≡ with_row_of plane.entry on self.old) }
    {
        self.rows.push(plane)?;
        self.on = on;
        Ok(())
    }

    fn leave_rows(&mut self, alloc: Global)
        ensures { self.new ≡ without_rows_of self.old }
    {
        self.rows = Vec::new(alloc);
        self.on = true;
    }

    fn take_table(
        &mut self,
        alloc: Global,
        line: u64,
        words: &'a [&'a [u8]],
    ) -> Result<(), OutOfMemory>
        requires { 0 < length words.now }
        ensures { OnOk result (self.new ≡ with_command_of line
            (TablePart (table_of_words (texts words.now) self.old)) self.old) }
    {
        self.rows.reverse();
        let rows = replace(&mut self.rows, Vec::new(alloc));
        let part = Part::Table(table_of(words, Seq::of(rows), self.on));
        self.take_command(alloc, line, part)
    }

    fn take_command(&mut self, alloc: Global, line: u64, part: Part<'a>) -> Result<(), OutOfMemory>
        ensures { OnOk result (self.new ≡ with_command_of line part.entry self.old) }
    {
        self.leave_rows(alloc);
        self.commands.push(Command { line, part })?;
        Ok(())
    }

    fn take_model(&mut self, alloc: Global, line: u64, word: &'a [u8]) -> Result<(), OutOfMemory>
        ensures { OnOk result (self.new ≡ with_model_of line word.now self.old) }
    {
        self.leave_rows(alloc);
        self.commands.reverse();
        let commands = replace(&mut self.commands, Vec::new(alloc));
        self.models.push(BlifModel {
            name: Word::of(word),
            line,
            commands: Seq::of(commands),
        })?;
        Ok(())
    }
}
