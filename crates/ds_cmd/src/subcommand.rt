ghost use Rattle.std.specs.Prelude.{◌≡◌, map, IfOk};
ghost use Rattle.clap.specs.Words.{rule_of, shape_of};
ghost use Rattle.ds_cmd.specs.Argument.{AreLocal, command_shape};

use clap::{Arg, Command};
use ds_base::OutOfMemory;
use std::alloc::Global;

/// The subcommand of this name, with these arguments in their order.
pub fn subcommand<'a>(
    alloc: Global,
    name: &'a str,
    args: Vec<Arg<'a>>,
) -> Result<Command<'a>, OutOfMemory>
    requires { AreLocal args.items }
    ensures { IfOk result (λ c.
        shape_of c ≡ command_shape name.entry.now (map rule_of args.entry.items)) }
{
    let command = Command::new(alloc, name).args(args)?;
    Ok(command)
}
