//! The whole command line, as `clap` takes it: the program, and behind it one of the commands.
ghost use Rattle.std.specs.Prelude.{◌≡◌, ◌++◌, ◌∷◌, List, [], map, IfOk};
ghost use Rattle.clap.specs.Words.{Shape, app_of, shape_of};
ghost use Rattle.ds_cmd.specs.Commands.{commands as commands_of, desync};

use crate::{accept, check, clock, demo, graph, list_clusters, period, rate, replay, run, times};
use clap::Command;
use ds_base::OutOfMemory;
use std::alloc::Global;

/// The program with its commands, one of which is wanted.
pub fn desync_command<'a>(alloc: Global) -> Result<Command<'a>, OutOfMemory>
    ensures { IfOk result (λ c. app_of c ≡ desync) }
{
    let commands = commands(alloc)?;
    let top = Command::new(alloc, "desync")
        .subcommand_required(true)
        .subcommands(commands)?;
    Ok(top)
}

// The commands, in the order of their table.
fn commands<'a>(alloc: Global) -> Result<Vec<Command<'a>>, OutOfMemory>
    ensures { IfOk result (λ cs.
        map shape_of cs.items ≡ map (λ entry. entry.shape) commands_of) }
{
    let commands = with(Ok(Vec::new(alloc)), run::command(alloc));
    let commands = with(commands, clock::command(alloc));
    let commands = with(commands, check::command(alloc));
    let commands = with(commands, graph::command(alloc));
    let commands = with(commands, replay::command(alloc));
    let commands = with(commands, accept::command(alloc));
    let commands = with(commands, demo::command(alloc));
    let commands = with(commands, period::command(alloc));
    let commands = with(commands, list_clusters::command(alloc));
    let commands = with(commands, rate::command(alloc));
    with(commands, times::command(alloc))
}

// One command more. Results go in, so that the caller has no way out between two commands.
fn with<'a>(
    commands: Result<Vec<Command<'a>>, OutOfMemory>,
    command: Result<Command<'a>, OutOfMemory>,
) -> Result<Vec<Command<'a>>, OutOfMemory>
    ensures { (before : List Shape) → (s : Shape)
        → IfOk commands.entry (λ cs. map shape_of cs.items ≡ before)
        → IfOk command.entry (λ c. shape_of c ≡ s)
        → IfOk result (λ cs. map shape_of cs.items ≡ before ++ s ∷ []) }
{
    let mut commands = commands?;
    commands.push(command?)?;
    Ok(commands)
}
