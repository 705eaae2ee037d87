//! The call of this crate: the words to a job. `clap` splits them, each command reads its values.
ghost use Rattle.std.specs.Prelude.{◌≡◌, ◌⊎◌, drop, map, IfOk};
ghost use Rattle.clap.specs.Words.{found_of, kind_of, rows_of, subcommand_rows_of};
ghost use Rattle.ds_cmd.specs.Allowed.{AreAllowed};
ghost use Rattle.ds_cmd.specs.Fault.{Gives};
ghost use Rattle.ds_cmd.specs.Commands.{commands};
ghost use Rattle.ds_cmd.specs.Line.{job_in, job_of, named_job};

use crate::command::desync_command;
use crate::{
    Job, UsageFault, accept, check, clock, demo, graph, list_clusters, period, rate, replay, run,
    times,
};
use clap::error::ErrorKind;
use clap::{ArgMatches, Error};
use std::alloc::Global;

/// The job that the words ask for. The first word is the program's name, which nothing looks at.
/// `Line` comes where `clap` does not take the words, or takes them for a request for help.
pub fn parse(alloc: Global, words: &[&str]) -> Result<Job, UsageFault>
    ensures value { Gives (job_of (map (λ w. w.now) words.now)) result }
    ensures numbers { IfOk result AreAllowed }
{
    let command = desync_command(alloc)?;
    match command.try_get_matches_from(words) {
        Ok(matches) => job(alloc, &matches),
        Err(error) => Err(usage_fault(&error)),
    }
}

// The fault of words that the command does not take.
fn usage_fault(error: &Error) -> UsageFault
    ensures memory { kind_of error.now ≡ ErrorKind.OutOfMemory → result ≡ UsageFault.Memory }
    ensures others { (result ≡ UsageFault.Memory) ⊎ (result ≡ UsageFault.Line) }
{
    match error.kind() {
        ErrorKind::OutOfMemory => UsageFault::Memory,
        _ => UsageFault::Line,
    }
}

// The job of words that the command takes.
fn job(alloc: Global, matches: &ArgMatches<'_>) -> Result<Job, UsageFault>
    ensures { Gives (job_in (subcommand_rows_of matches.now)) result }
{
    let Some((name, values)) = matches.subcommand() else {
        return Err(UsageFault::Line);
    };
    job_named(alloc, name, values)
}

// The job of the command of this name.
fn job_named(alloc: Global, name: &str, values: &ArgMatches<'_>) -> Result<Job, UsageFault>
    ensures { Gives (named_job name.now (rows_of (found_of values.now)) commands) result }
{
    if name == "run" {
        run::job(alloc, values)
    } else if name == "clock" {
        clock::job(alloc, values)
    } else if name == "check" {
        check::job(alloc, values)
    } else if name == "graph" {
        graph::job(alloc, values)
    } else {
        further_job(alloc, name, values)
    }
}

// The job of the command of this name, of those behind the first four.
fn further_job(alloc: Global, name: &str, values: &ArgMatches<'_>) -> Result<Job, UsageFault>
    ensures { Gives (named_job name.now (rows_of (found_of values.now)) (drop 4 commands)) result }
{
    if name == "replay" {
        replay::job(alloc, values)
    } else if name == "accept" {
        accept::job(alloc, values)
    } else if name == "demo" {
        demo::job(values)
    } else {
        timed_job(alloc, name, values)
    }
}

// The job of the command of this name, of those that read delays.
fn timed_job(alloc: Global, name: &str, values: &ArgMatches<'_>) -> Result<Job, UsageFault>
    ensures { Gives (named_job name.now (rows_of (found_of values.now)) (drop 7 commands)) result }
{
    if name == "period" {
        period::job(alloc, values)
    } else if name == "clusters" {
        list_clusters::job(alloc, values)
    } else if name == "rate" {
        rate::job(alloc, values)
    } else if name == "times" {
        times::job(alloc, values)
    } else {
        Err(UsageFault::Line)
    }
}
