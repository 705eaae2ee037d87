//! The words of `replay`, and the job that they ask for.
ghost use Rattle.std.specs.Prelude.{◌≡◌, IfOk};
ghost use Rattle.clap.specs.Words.{shape_of, found_of, rows_of};
ghost use Rattle.ds_cmd.specs.Fault.{Gives};
ghost use Rattle.ds_cmd.specs.Replay.{replay_job, replay_shape};

use crate::argument::{flag, flag_with, named, option, text, word};
use crate::clusters::clusters;
use crate::number::slack;
use crate::subcommand::subcommand;
use crate::{FileName, Job, UsageFault};
use clap::{ArgMatches, Command};
use ds_base::{Mode, OutOfMemory};
use std::alloc::Global;

/// What `replay` is to do.
#[derive(Drop)]
pub struct ReplayJob {
    /// The file of the netlist.
    pub net: FileName,
    /// The file of the vectors.
    pub vec: FileName,
    /// The file of the log.
    pub log: FileName,
    /// The file of a controller graph, where one is named.
    pub graph: Option<FileName>,
    /// How registers are put into clusters.
    pub clusters: Mode,
    /// The file of groups of registers, where one is named.
    pub groups: Option<FileName>,
    /// How many openings a producer may run ahead of its consumers, 0 to 15.
    pub slack: u8,
    /// Whether what the open latches let through is wanted, which is without slack.
    pub transparent: bool,
}

/// `replay NET VEC LOG [--graph G] [--clusters MODE] [--groups F] [--slack S]
/// [--transparent]`, as a subcommand.
pub fn command<'a>(alloc: Global) -> Result<Command<'a>, OutOfMemory>
    ensures { IfOk result (λ c. shape_of c ≡ replay_shape) }
{
    let args = vec![in alloc;
        word(alloc, "net"),
        word(alloc, "vec"),
        word(alloc, "log"),
        option(alloc, "graph"),
        option(alloc, "clusters"),
        option(alloc, "groups"),
        option(alloc, "slack"),
        flag(alloc, "transparent"),
    ]?;
    subcommand(alloc, "replay", args)
}

/// The job of the values behind `replay`.
pub fn job(alloc: Global, values: &ArgMatches<'_>) -> Result<Job, UsageFault>
    ensures { Gives (replay_job (rows_of (found_of values.now))) result }
{
    let Some(net) = text(values, "net") else {
        return Err(UsageFault::Line);
    };
    let Some(vec) = text(values, "vec") else {
        return Err(UsageFault::Line);
    };
    let Some(log) = text(values, "log") else {
        return Err(UsageFault::Line);
    };
    let Some(slack) = slack(values) else {
        return Err(UsageFault::Number);
    };
    let Some(clusters) = clusters(values) else {
        return Err(UsageFault::Mode);
    };
    let Some(transparent) = flag_with(values, "transparent", slack) else {
        return Err(UsageFault::Mode);
    };
    Ok(Job::Replay(ReplayJob {
        net: FileName::new(alloc, net)?,
        vec: FileName::new(alloc, vec)?,
        log: FileName::new(alloc, log)?,
        graph: named(alloc, values, "graph")?,
        clusters,
        groups: named(alloc, values, "groups")?,
        slack,
        transparent,
    }))
}
