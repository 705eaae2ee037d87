//! The words of `clock`, and the job that they ask for.
ghost use Rattle.std.specs.Prelude.{◌≡◌, IfOk};
ghost use Rattle.clap.specs.Words.{shape_of, found_of, rows_of};
ghost use Rattle.ds_cmd.specs.Fault.{Gives};
ghost use Rattle.ds_cmd.specs.Clock.{clock_job, clock_shape};

use crate::argument::{text, word};
use crate::subcommand::subcommand;
use crate::{FileName, Job, UsageFault};
use clap::{ArgMatches, Command};
use ds_base::OutOfMemory;
use std::alloc::Global;

/// What `clock` is to do.
#[derive(Drop)]
pub struct ClockJob {
    /// The file of the netlist.
    pub net: FileName,
    /// The file of the vectors.
    pub vec: FileName,
}

/// `clock NET VEC`, as a subcommand.
pub fn command<'a>(alloc: Global) -> Result<Command<'a>, OutOfMemory>
    ensures { IfOk result (λ c. shape_of c ≡ clock_shape) }
{
    let args = vec![in alloc; word(alloc, "net"), word(alloc, "vec")]?;
    subcommand(alloc, "clock", args)
}

/// The job of the values behind `clock`.
pub fn job(alloc: Global, values: &ArgMatches<'_>) -> Result<Job, UsageFault>
    ensures { Gives (clock_job (rows_of (found_of values.now))) result }
{
    let Some(net) = text(values, "net") else {
        return Err(UsageFault::Line);
    };
    let Some(vec) = text(values, "vec") else {
        return Err(UsageFault::Line);
    };
    Ok(Job::Clock(ClockJob {
        net: FileName::new(alloc, net)?,
        vec: FileName::new(alloc, vec)?,
    }))
}
