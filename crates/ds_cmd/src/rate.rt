//! The words of `rate`, and the job that they ask for.
ghost use Rattle.std.specs.Prelude.{◌≡◌, IfOk};
ghost use Rattle.clap.specs.Words.{shape_of, found_of, rows_of};
ghost use Rattle.ds_cmd.specs.Fault.{Gives};
ghost use Rattle.ds_cmd.specs.Rate.{rate_job, rate_shape};

use crate::argument::{text, word};
use crate::subcommand::subcommand;
use crate::{FileName, Job, UsageFault};
use clap::{ArgMatches, Command};
use ds_base::OutOfMemory;
use std::alloc::Global;

/// What `rate` is to do.
#[derive(Drop)]
pub struct RateJob {
    /// The file of the graph.
    pub graph: FileName,
    /// The file of the delays.
    pub delays: FileName,
}

/// `rate G D`, as a subcommand.
pub fn command<'a>(alloc: Global) -> Result<Command<'a>, OutOfMemory>
    ensures { IfOk result (λ c. shape_of c ≡ rate_shape) }
{
    let args = vec![in alloc; word(alloc, "graph"), word(alloc, "delays")]?;
    subcommand(alloc, "rate", args)
}

/// The job of the values behind `rate`.
pub fn job(alloc: Global, values: &ArgMatches<'_>) -> Result<Job, UsageFault>
    ensures { Gives (rate_job (rows_of (found_of values.now))) result }
{
    let Some(graph) = text(values, "graph") else {
        return Err(UsageFault::Line);
    };
    let Some(delays) = text(values, "delays") else {
        return Err(UsageFault::Line);
    };
    Ok(Job::Rate(RateJob {
        graph: FileName::new(alloc, graph)?,
        delays: FileName::new(alloc, delays)?,
    }))
}
