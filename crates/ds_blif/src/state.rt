//! What the lines before a line leave open.
ghost use Rattle.std.specs.Prelude.{◌≡◌, ◌<◌, ◌&&◌, length, option_map};
ghost use Rattle.ds_lines.specs.Words.{texts};
ghost use Rattle.ds_blif.specs.State.{State as Before, before_lines, open_after as open_behind};
ghost use Rattle.ds_blif.specs.State.{table_after as table_behind, first_after as first_behind};
ghost use Rattle.ds_blif.specs.State.{wants_model as wants_open_model};

use crate::head::Head;
use crate::row::output;
use ds_lines::Names;
use std::alloc::Global;
use std::marker::Model;

/// Whether a model is open, how many inputs the table has whose rows may stand here, the output of
/// its first row, and the names of the models so far.
#[derive(Drop)]
pub struct State<'a> {
    pub is_open: bool,
    pub table: Option<usize>,
    pub first: Option<&'a [u8]>,
    pub models: Names<'a>,
}

impl<'a> Model for State<'a> {
    ghost use Rattle.std.specs.Prelude.{option_map};
    ghost use Rattle.ds_blif.specs.State.{State as Before};

    ghost Value = { Before };

    ghost view = { λ s. record {
      is_open = s.is_open;
      table = s.table;
      first = option_map (λ w. w.now) s.first;
      models = s.models;
    } };
}

/// Before all lines.
pub fn initial<'a>(alloc: Global) -> State<'a>
    ensures { result ≡ before_lines }
{
    State {
        is_open: false,
        table: None,
        first: None,
        models: Names::new(alloc),
    }
}

/// Whether such a line stands in a model alone.
pub fn wants_model(head: Head) -> bool
    ensures { result ≡ wants_open_model head }
{
    match head {
        Head::Model | Head::End | Head::Skipped | Head::Unknown => false,
        Head::Row
        | Head::Names
        | Head::Inputs
        | Head::Outputs
        | Head::Clock
        | Head::Latch
        | Head::Subckt => true,
    }
}

/// Whether a model is open behind a line.
pub fn open_after(head: Head, before: bool) -> bool
    ensures { result ≡ open_behind head before }
{
    match head {
        Head::Model => true,
        Head::End => false,
        Head::Row
        | Head::Names
        | Head::Inputs
        | Head::Outputs
        | Head::Clock
        | Head::Latch
        | Head::Subckt
        | Head::Skipped
        | Head::Unknown => before,
    }
}

/// How many inputs the table has whose rows may stand behind a line.
pub fn table_after(head: Head, words: &[&[u8]], table: Option<usize>) -> Option<usize>
    ensures { result ≡ table_behind head (texts words.now) table }
{
    match head {
        Head::Row | Head::Skipped => table,
        Head::Names => Some(words.len().saturating_sub(2)),
        Head::Model
        | Head::Inputs
        | Head::Outputs
        | Head::Clock
        | Head::Latch
        | Head::Subckt
        | Head::End
        | Head::Unknown => None,
    }
}

/// The output of that table's first row, where one stands there.
pub fn first_after<'a>(head: Head, words: &[&'a [u8]], first: Option<&'a [u8]>) -> Option<&'a [u8]>
    requires { 0 < length words.now }
    ensures { option_map (λ w. w.now) result ≡ first_behind head (texts words.now) (option_map
        (λ w. w.now) first.entry) }
{
    match head {
        Head::Row => match first {
            Some(word) => Some(word),
            None => Some(output(words)),
        },
        Head::Skipped => first,
        Head::Names
        | Head::Model
        | Head::Inputs
        | Head::Outputs
        | Head::Clock
        | Head::Latch
        | Head::Subckt
        | Head::End
        | Head::Unknown => None,
    }
}
