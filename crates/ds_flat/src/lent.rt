//! A command that is lent.
ghost use Rattle.std.specs.Prelude.{◌≡◌};

use ds_design::Command;
use std::marker::Model;

/// A command of a text's model, where it stands. Contracts see the command.
#[derive(Drop)]
pub struct Lent<'m> {
    command: &'m Command<'m>,
}

impl<'m> Model for Lent<'m> {
    ghost use Rattle.ds_design.specs.declared.blif.Command.{Command};

    ghost Value = { Command };

    ghost view = { λ l. l.command.now };
}

impl<'m> Lent<'m> {
    /// Of a command.
    pub fn of(command: &'m Command<'m>) -> Self
        ensures { result ≡ command.entry.now }
    {
        Lent { command }
    }

    /// The command.
    pub fn get(&self) -> &'m Command<'m>
        ensures { result.now ≡ self.now }
    {
        self.command
    }
}
