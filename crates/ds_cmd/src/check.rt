ghost use Rattle.std.specs.Prelude.{◌≡◌, IfOk};
ghost use Rattle.clap.specs.Words.{shape_of, found_of, rows_of};
ghost use Rattle.ds_cmd.specs.Fault.{Gives};
ghost use Rattle.ds_cmd.specs.Check.{check_job, check_shape};

use crate::argument::{text, word};
use crate::subcommand::subcommand;
use crate::{FileName, Job, UsageFault};
use clap::{ArgMatches, Command};
use ds_base::OutOfMemory;
use std::alloc::Global;

/// `check NET`, as a subcommand.
pub fn command<'a>(alloc: Global) -> Result<Command<'a>, OutOfMemory>
    ensures { IfOk result (λ c. shape_of c ≡ check_shape) }
{
    let args = vec![in alloc; word(alloc, "net")]?;
    subcommand(alloc, "check", args)
}

/// The job of the values behind `check`.
pub fn job(alloc: Global, values: &ArgMatches<'_>) -> Result<Job, UsageFault>
    ensures { Gives (check_job (rows_of (found_of values.now))) result }
{
    let Some(net) = text(values, "net") else {
        return Err(UsageFault::Line);
    };
    Ok(Job::Check(FileName::new(alloc, net)?))
}
