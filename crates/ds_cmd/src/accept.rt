//! The words of `accept`, and the job that they ask for.
ghost use Rattle.std.specs.Prelude.{◌≡◌, IfOk};
ghost use Rattle.clap.specs.Words.{shape_of, found_of, rows_of};
ghost use Rattle.ds_cmd.specs.Fault.{Gives};
ghost use Rattle.ds_cmd.specs.Accept.{accept_job, accept_shape};

use crate::argument::{named, option, text, word};
use crate::clusters::clusters;
use crate::number::slack;
use crate::subcommand::subcommand;
use crate::{FileName, Job, UsageFault};
use clap::{ArgMatches, Command};
use ds_base::{Mode, OutOfMemory};
use std::alloc::Global;

/// What `accept` is to do.
#[derive(Drop)]
pub struct AcceptJob {
    /// The file of the netlist.
    pub net: FileName,
    /// The file of the controller graph.
    pub graph: FileName,
    /// How registers are put into clusters.
    pub clusters: Mode,
    /// The file of groups of registers, where one is named.
    pub groups: Option<FileName>,
    /// How many openings a producer may run ahead of its consumers, 0 to 15.
    pub slack: u8,
}

/// `accept NET G [--clusters MODE] [--groups F] [--slack S]`, as a subcommand.
pub fn command<'a>(alloc: Global) -> Result<Command<'a>, OutOfMemory>
    ensures { IfOk result (λ c. shape_of c ≡ accept_shape) }
{
    let args = vec![in alloc;
        word(alloc, "net"),
        word(alloc, "graph"),
        option(alloc, "clusters"),
        option(alloc, "groups"),
        option(alloc, "slack"),
    ]?;
    subcommand(alloc, "accept", args)
}

/// The job of the values behind `accept`.
pub fn job(alloc: Global, values: &ArgMatches<'_>) -> Result<Job, UsageFault>
    ensures { Gives (accept_job (rows_of (found_of values.now))) result }
{
    let Some(net) = text(values, "net") else {
        return Err(UsageFault::Line);
    };
    let Some(graph) = text(values, "graph") else {
        return Err(UsageFault::Line);
    };
    let Some(slack) = slack(values) else {
        return Err(UsageFault::Number);
    };
    let Some(clusters) = clusters(values) else {
        return Err(UsageFault::Mode);
    };
    Ok(Job::Accept(AcceptJob {
        net: FileName::new(alloc, net)?,
        graph: FileName::new(alloc, graph)?,
        clusters,
        groups: named(alloc, values, "groups")?,
        slack,
    }))
}
