//! The words of `demo`, all of them numbers, and the job that they ask for.
ghost use Rattle.std.specs.Prelude.{◌≡◌, IfOk};
ghost use Rattle.clap.specs.Words.{shape_of, found_of, rows_of};
ghost use Rattle.ds_cmd.specs.Demo.{demo_job, demo_of, demo_shape};

use crate::argument::{option, text, word};
use crate::number::{jobs, number, small_number};
use crate::subcommand::subcommand;
use crate::{Job, UsageFault};
use clap::{ArgMatches, Command};
use ds_base::{Limit, OutOfMemory};
use std::alloc::Global;

/// What `demo` is to do.
#[derive(Drop)]
pub struct DemoJob {
    /// The number that the netlist and the vectors are made from.
    pub seed: u64,
    /// How many registers the netlist has, 1 to 4,096.
    pub registers: u32,
    /// For how many turns there are vectors, up to 65,536.
    pub turns: u32,
    /// How many threads are wanted, 1 to 64.
    pub jobs: u32,
}

/// `demo SEED REGISTERS TURNS [--jobs N]`, as a subcommand.
pub fn command<'a>(alloc: Global) -> Result<Command<'a>, OutOfMemory>
    ensures { IfOk result (λ c. shape_of c ≡ demo_shape) }
{
    let args = vec![in alloc;
        word(alloc, "seed"),
        word(alloc, "registers"),
        word(alloc, "turns"),
        option(alloc, "jobs"),
    ]?;
    subcommand(alloc, "demo", args)
}

/// The job of the values behind `demo`.
pub fn job(values: &ArgMatches<'_>) -> Result<Job, UsageFault>
    ensures { result ≡ demo_job (rows_of (found_of values.now)) }
{
    let Some(seed) = text(values, "seed") else {
        return Err(UsageFault::Line);
    };
    let Some(registers) = text(values, "registers") else {
        return Err(UsageFault::Line);
    };
    let Some(turns) = text(values, "turns") else {
        return Err(UsageFault::Line);
    };
    job_of(seed, registers, turns, values)
}

// The job of the three words, with the options beside them.
fn job_of(
    seed: &str,
    registers: &str,
    turns: &str,
    values: &ArgMatches<'_>,
) -> Result<Job, UsageFault>
    ensures { result ≡ demo_of seed.now registers.now turns.now (rows_of (found_of values.now)) }
{
    let Some(seed) = number(seed, 0, u64::MAX) else {
        return Err(UsageFault::Number);
    };
    let Some(registers) = small_number(registers, 1, Limit::Clusters.most() as u32) else {
        return Err(UsageFault::Number);
    };
    let Some(turns) = small_number(turns, 0, Limit::Vectors.most() as u32) else {
        return Err(UsageFault::Number);
    };
    let Some(jobs) = jobs(values) else {
        return Err(UsageFault::Number);
    };
    Ok(Job::Demo(DemoJob {
        seed,
        registers,
        turns,
        jobs,
    }))
}
