//! The words of `graph`, and the job that they ask for.
ghost use Rattle.std.specs.Prelude.{◌≡◌, IfOk};
ghost use Rattle.clap.specs.Words.{shape_of, found_of, rows_of};
ghost use Rattle.ds_cmd.specs.Fault.{Gives};
ghost use Rattle.ds_cmd.specs.Graph.{graph_job, graph_shape};

use crate::argument::{flag, flag_with, named, option, text, word};
use crate::clusters::clusters;
use crate::number::slack;
use crate::subcommand::subcommand;
use crate::{FileName, Job, UsageFault};
use clap::{ArgMatches, Command};
use ds_base::{Mode, OutOfMemory};
use std::alloc::Global;

/// What `graph` is to do.
#[derive(Drop)]
pub struct GraphJob {
    /// The file of the netlist.
    pub net: FileName,
    /// How registers are put into clusters.
    pub clusters: Mode,
    /// The file of groups of registers, where one is named.
    pub groups: Option<FileName>,
    /// How many openings a producer may run ahead of its consumers, 0 to 15.
    pub slack: u8,
    /// Whether the four-phase expansion of the graph is wanted, which is without slack.
    pub shake: bool,
}

/// `graph NET [--clusters MODE] [--groups F] [--slack S] [--shake]`, as a subcommand.
pub fn command<'a>(alloc: Global) -> Result<Command<'a>, OutOfMemory>
    ensures { IfOk result (λ c. shape_of c ≡ graph_shape) }
{
    let args = vec![in alloc;
        word(alloc, "net"),
        option(alloc, "clusters"),
        option(alloc, "groups"),
        option(alloc, "slack"),
        flag(alloc, "shake"),
    ]?;
    subcommand(alloc, "graph", args)
}

/// The job of the values behind `graph`.
pub fn job(alloc: Global, values: &ArgMatches<'_>) -> Result<Job, UsageFault>
    ensures { Gives (graph_job (rows_of (found_of values.now))) result }
{
    let Some(net) = text(values, "net") else {
        return Err(UsageFault::Line);
    };
    let Some(slack) = slack(values) else {
        return Err(UsageFault::Number);
    };
    let Some(clusters) = clusters(values) else {
        return Err(UsageFault::Mode);
    };
    let Some(shake) = flag_with(values, "shake", slack) else {
        return Err(UsageFault::Mode);
    };
    Ok(Job::Graph(GraphJob {
        net: FileName::new(alloc, net)?,
        clusters,
        groups: named(alloc, values, "groups")?,
        slack,
        shake,
    }))
}
