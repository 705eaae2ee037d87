//! The words of `clusters`, and the job that they ask for.
ghost use Rattle.std.specs.Prelude.{◌≡◌, IfOk};
ghost use Rattle.clap.specs.Words.{shape_of, found_of, rows_of};
ghost use Rattle.ds_cmd.specs.Fault.{Gives};
ghost use Rattle.ds_cmd.specs.ListClusters.{clusters_job, clusters_shape};

use crate::argument::{named, option, text, word};
use crate::clusters::clusters;
use crate::subcommand::subcommand;
use crate::{FileName, Job, UsageFault};
use clap::{ArgMatches, Command};
use ds_base::{Mode, OutOfMemory};
use std::alloc::Global;

/// What `clusters` is to do.
#[derive(Drop)]
pub struct ClustersJob {
    /// The file of the netlist.
    pub net: FileName,
    /// How registers are put into clusters.
    pub clusters: Mode,
    /// The file of groups of registers, where one is named.
    pub groups: Option<FileName>,
}

/// `clusters NET [--clusters MODE] [--groups F]`, as a subcommand.
pub fn command<'a>(alloc: Global) -> Result<Command<'a>, OutOfMemory>
    ensures { IfOk result (λ c. shape_of c ≡ clusters_shape) }
{
    let args = vec![in alloc;
        word(alloc, "net"),
        option(alloc, "clusters"),
        option(alloc, "groups"),
    ]?;
    subcommand(alloc, "clusters", args)
}

/// The job of the values behind `clusters`.
pub fn job(alloc: Global, values: &ArgMatches<'_>) -> Result<Job, UsageFault>
    ensures { Gives (clusters_job (rows_of (found_of values.now))) result }
{
    let Some(net) = text(values, "net") else {
        return Err(UsageFault::Line);
    };
    let Some(clusters) = clusters(values) else {
        return Err(UsageFault::Mode);
    };
    Ok(Job::Clusters(ClustersJob {
        net: FileName::new(alloc, net)?,
        clusters,
        groups: named(alloc, values, "groups")?,
    }))
}
