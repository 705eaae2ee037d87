//! The words of `run`, and the job that they ask for.
ghost use Rattle.std.specs.Prelude.{◌≡◌, IfOk};
ghost use Rattle.clap.specs.Words.{shape_of, found_of, rows_of};
ghost use Rattle.ds_cmd.specs.Fault.{Gives};
ghost use Rattle.ds_cmd.specs.Run.{run_job, run_shape};

use crate::argument::{flag, is_set, named, option, text, word};
use crate::clusters::clusters;
use crate::number::{jobs, slack, stop};
use crate::subcommand::subcommand;
use crate::{FileName, Job, UsageFault};
use clap::{ArgMatches, Command};
use ds_base::{Mode, OutOfMemory};
use std::alloc::Global;

/// What `run` is to do.
#[derive(Drop)]
pub struct RunJob {
    /// The file of the netlist.
    pub net: FileName,
    /// The file of the vectors.
    pub vec: FileName,
    /// The file of a controller graph, where one is named.
    pub graph: Option<FileName>,
    /// How registers are put into clusters.
    pub clusters: Mode,
    /// The file of groups of registers, where one is named.
    pub groups: Option<FileName>,
    /// How many threads are wanted, 1 to 64.
    pub jobs: u32,
    /// Whether the log of the firings is wanted behind the trace.
    pub log: bool,
    /// How many openings a producer may run ahead of its consumers, 0 to 15.
    pub slack: u8,
    /// How many events each worker fires at most, where the run is to be stopped.
    pub stop: Option<u64>,
}

/// `run NET VEC [--graph G] [--clusters MODE] [--groups F] [--jobs N] [--log] [--slack S]
/// [--stop K]`, as a subcommand.
pub fn command<'a>(alloc: Global) -> Result<Command<'a>, OutOfMemory>
    ensures { IfOk result (λ c. shape_of c ≡ run_shape) }
{
    let args = vec![in alloc;
        word(alloc, "net"),
        word(alloc, "vec"),
        option(alloc, "graph"),
        option(alloc, "clusters"),
        option(alloc, "groups"),
        option(alloc, "jobs"),
        flag(alloc, "log"),
        option(alloc, "slack"),
        option(alloc, "stop"),
    ]?;
    subcommand(alloc, "run", args)
}

/// The job of the values behind `run`.
pub fn job(alloc: Global, values: &ArgMatches<'_>) -> Result<Job, UsageFault>
    ensures { Gives (run_job (rows_of (found_of values.now))) result }
{
    let Some(net) = text(values, "net") else {
        return Err(UsageFault::Line);
    };
    let Some(vec) = text(values, "vec") else {
        return Err(UsageFault::Line);
    };
    let Some(jobs) = jobs(values) else {
        return Err(UsageFault::Number);
    };
    let Some(slack) = slack(values) else {
        return Err(UsageFault::Number);
    };
    let Some(stop) = stop(values) else {
        return Err(UsageFault::Number);
    };
    let Some(clusters) = clusters(values) else {
        return Err(UsageFault::Mode);
    };
    Ok(Job::Run(RunJob {
        net: FileName::new(alloc, net)?,
        vec: FileName::new(alloc, vec)?,
        graph: named(alloc, values, "graph")?,
        clusters,
        groups: named(alloc, values, "groups")?,
        jobs,
        log: is_set(values, "log"),
        slack,
        stop,
    }))
}
