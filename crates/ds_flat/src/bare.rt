//! Models without the commands that add nothing, so that a copy of one takes what it adds and no
//! longer.
ghost use Rattle.std.specs.Prelude.{◌≡◌, ◌==◌, IfOk, map, length};
ghost use Rattle.ds_flat.specs.Bare.{adds_nothing as adds_nothing_in, needed as needed_of, bare};

use crate::lent::Lent;
use ds_base::OutOfMemory;
use ds_design::{BlifModel, Command, Part};
use std::alloc::Global;
use std::marker::Model;

/// A model whose commands add something. Contracts see it as a model of a text.
#[derive(Drop)]
pub struct Bare<'m> {
    name: &'m [u8],
    line: u64,
    commands: Vec<Lent<'m>>,
}

impl<'m> Model for Bare<'m> {
    ghost use Rattle.ds_design.specs.declared.blif.BlifModel.{BlifModel};

    ghost Value = { BlifModel };

    ghost view = { λ b. record {
      name = b.name.now;
      line = b.line;
      commands = b.commands.items;
    } };
}

impl<'m> Bare<'m> {
    /// Of a model of a text.
    pub fn of(alloc: Global, model: &'m BlifModel<'m>) -> Result<Self, OutOfMemory>
        ensures { IfOk result (λ b. b ≡ bare model.entry.now) }
    {
        let commands = needed(alloc, model.commands.as_slice())?;
        Ok(Bare {
            name: model.name.get(),
            line: model.line,
            commands,
        })
    }

    /// Its name.
    pub fn name(&self) -> &'m [u8]
        ensures { result.now ≡ self.now.name }
    {
        self.name
    }

    /// Its commands.
    pub fn commands(&self) -> &[Lent<'m>]
        ensures { result.now ≡ self.now.commands }
    {
        self.commands.as_slice()
    }
}

/// The models of a text, without the commands that add nothing.
pub fn bare_models<'m>(
    alloc: Global,
    models: &'m [BlifModel<'m>],
) -> Result<Vec<Bare<'m>>, OutOfMemory>
    ensures { IfOk result (λ b. b.items ≡ map bare models.now) }
{
    let mut all = Vec::with_capacity(alloc, models.len())?;
    for model in models {
        all.push(Bare::of(alloc, model)?)?;
    }
    Ok(all)
}

// The commands that add something.
fn needed<'m>(alloc: Global, commands: &'m [Command<'m>]) -> Result<Vec<Lent<'m>>, OutOfMemory>
    ensures { IfOk result (λ c. c.items ≡ needed_of commands.now) }
{
    let mut all = Vec::with_capacity(alloc, commands.len())?;
    for command in commands {
        if !adds_nothing(&command.part) {
            all.push(Lent::of(command))?;
        }
    }
    Ok(all)
}

// Whether a command is an interface line without names.
fn adds_nothing(part: &Part<'_>) -> bool
    ensures { result ≡ adds_nothing_in part.now }
{
    match part {
        Part::Inputs(names) => names.len() == 0,
        Part::Outputs(names) => names.len() == 0,
        Part::Clock(names) => names.len() == 0,
        Part::Table(_) | Part::Latch(_) | Part::Subckt(_) => false,
    }
}
