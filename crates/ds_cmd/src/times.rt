//! The words of `times`, and the job that they ask for.
ghost use Rattle.std.specs.Prelude.{◌≡◌, IfOk};
ghost use Rattle.clap.specs.Words.{shape_of, found_of, rows_of};
ghost use Rattle.ds_cmd.specs.Fault.{Gives};
ghost use Rattle.ds_cmd.specs.Times.{times_job, times_shape};

use crate::argument::{named, option, text, word};
use crate::clusters::clusters;
use crate::number::{slack, small_number};
use crate::subcommand::subcommand;
use crate::{FileName, Job, UsageFault};
use clap::{ArgMatches, Command};
use ds_base::{Limit, Mode, OutOfMemory};
use std::alloc::Global;

/// What `times` is to do.
#[derive(Drop)]
pub struct TimesJob {
    /// The file of the netlist.
    pub net: FileName,
    /// The file of the delays.
    pub delays: FileName,
    /// For how many turns the times are wanted, up to 65,536.
    pub turns: u32,
    /// The file of a controller graph, where one is named.
    pub graph: Option<FileName>,
    /// How registers are put into clusters.
    pub clusters: Mode,
    /// The file of groups of registers, where one is named.
    pub groups: Option<FileName>,
    /// How many openings a producer may run ahead of its consumers, 0 to 15.
    pub slack: u8,
}

/// `times NET D TURNS [--graph G] [--clusters MODE] [--groups F] [--slack S]`, as a subcommand.
pub fn command<'a>(alloc: Global) -> Result<Command<'a>, OutOfMemory>
    ensures { IfOk result (λ c. shape_of c ≡ times_shape) }
{
    let args = vec![in alloc;
        word(alloc, "net"),
        word(alloc, "delays"),
        word(alloc, "turns"),
        option(alloc, "graph"),
        option(alloc, "clusters"),
        option(alloc, "groups"),
        option(alloc, "slack"),
    ]?;
    subcommand(alloc, "times", args)
}

/// The job of the values behind `times`.
pub fn job(alloc: Global, values: &ArgMatches<'_>) -> Result<Job, UsageFault>
    ensures { Gives (times_job (rows_of (found_of values.now))) result }
{
    let Some(net) = text(values, "net") else {
        return Err(UsageFault::Line);
    };
    let Some(delays) = text(values, "delays") else {
        return Err(UsageFault::Line);
    };
    let Some(turns) = text(values, "turns") else {
        return Err(UsageFault::Line);
    };
    let Some(turns) = small_number(turns, 0, Limit::Vectors.most() as u32) else {
        return Err(UsageFault::Number);
    };
    let Some(slack) = slack(values) else {
        return Err(UsageFault::Number);
    };
    let Some(clusters) = clusters(values) else {
        return Err(UsageFault::Mode);
    };
    Ok(Job::Times(TimesJob {
        net: FileName::new(alloc, net)?,
        delays: FileName::new(alloc, delays)?,
        turns,
        graph: named(alloc, values, "graph")?,
        clusters,
        groups: named(alloc, values, "groups")?,
        slack,
    }))
}
