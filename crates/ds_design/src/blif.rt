//! The models of a netlist's text, as they are written: nets by their names, rows as characters.
ghost use Rattle.std.specs.Prelude.{◌≡◌, ◌<◌, List, length};
ghost use Rattle.ds_design.specs.Source.{IsBlif};

use crate::Edge;
use crate::word::Word;
use crate::words::Words;
use ds_base::Seq;
use std::marker::Model;

/// A table: its rows list where it is 1 (`on`), or where it is 0. A row has a character for each
/// input.
#[derive(Drop)]
pub struct TableText<'a> {
    pub inputs: Words<'a>,
    pub output: Word<'a>,
    pub rows: Seq<Word<'a>>,
    pub on: bool,
}

/// A register, a `.latch`: edge and control where they are written, and the initial value, 0 to 3.
#[derive(Drop)]
pub struct LatchText<'a> {
    pub data_net: Word<'a>,
    pub output: Word<'a>,
    pub edge: Option<Edge>,
    pub control: Option<Word<'a>>,
    pub initial: u8,
}

/// A name of the model that is used, and the name that stands for it here, empty where it is left
/// unconnected.
#[derive(Drop)]
pub struct Pair<'a> {
    pub formal: Word<'a>,
    pub actual: Word<'a>,
}

/// A use of a model, with its pairs in the order of the words.
#[derive(Drop)]
pub struct UseText<'a> {
    pub model: Word<'a>,
    pub pairs: Seq<Pair<'a>>,
}

/// What a command says.
#[derive(Drop)]
pub enum Part<'a> {
    Inputs(Words<'a>),
    Outputs(Words<'a>),
    Clock(Words<'a>),
    Table(TableText<'a>),
    Latch(LatchText<'a>),
    Subckt(UseText<'a>),
}

/// A command, and the number of its line, from 1.
#[derive(Drop)]
pub struct Command<'a> {
    pub line: u64,
    pub part: Part<'a>,
}

/// A model, and the number of the line of its head.
#[derive(Drop)]
pub struct BlifModel<'a> {
    pub name: Word<'a>,
    pub line: u64,
    pub commands: Seq<Command<'a>>,
}

/// The models of a text, the main one first. Contracts see the list of them.
#[derive(Drop)]
pub struct Blif<'a> {
    models: Seq<BlifModel<'a>>,
}

impl<'a> Model for Blif<'a> {
    ghost use Rattle.std.specs.Prelude.{List};
    ghost use Rattle.ds_design.specs.declared.blif.BlifModel.{BlifModel};
    ghost use Rattle.ds_design.specs.Source.{IsBlif};

    ghost Value = { List BlifModel };

    ghost view = { λ b. b.models };

    ghost invariant = { λ b. IsBlif b.models };
}

impl<'a> Blif<'a> {
    /// Of its models.
    pub fn of(models: Seq<BlifModel<'a>>) -> Self
        requires { IsBlif models }
        ensures { result ≡ models.entry }
    {
        Blif { models }
    }

    /// The models, in the order of the text.
    pub fn models(&self) -> &[BlifModel<'a>]
        ensures value { result.now ≡ self.now }
        ensures kept { IsBlif self.now }
    {
        self.models.as_slice()
    }
}
