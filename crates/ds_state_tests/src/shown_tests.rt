//! What latches show while a log is fired is what they hold.
ghost use Rattle.std.specs.Prelude.{◌≡◌, ◌<◌, length};
ghost use Rattle.ds_design.specs.Circuit.{columns};
ghost use Rattle.ds_latch.specs.Node.{nodes};
ghost use Rattle.ds_fire.specs.Snapshot.{split_of};

use ds_base::{LatchId, Mode, OutOfMemory, Row3};
use ds_design::{Netlist, Vectors};
use ds_fire::State;
use ds_latch::{Latches, Plan};
use ds_lines::lines;
use ds_outside::OpenGate;
use ds_replay::replay;
use ds_stage::{Stop, no_groups, own_plan, read_netlist, read_rows, split_groups};
use ds_trial::{files, printed, tangle};
use std::alloc::Global;
use std::test::Fail;

// Two vectors.
const VECTORS: &str = "1\n0\n";

// Whether a node shows what it holds.
fn shows_what_it_holds(
    alloc: Global,
    latches: &Latches<'_>,
    state: &State<'_>,
    number: usize,
) -> Result<bool, OutOfMemory>
    requires split { split_of state.now ≡ latches.now }
    requires slack { latches.now.slack ≡ 0 }
    requires node { number < nodes latches.now }
{
    let _few = latches.edges();
    let bits = latches.bits();
    let mut nets = Row3::with_len(alloc, latches.netlist().design().nets().len())?;
    let mut shown = Row3::with_len(alloc, bits[number].as_slice().len())?;
    let latch = LatchId::new(number as u32);
    state.output(latch, &mut nets, &mut shown);
    Ok(shown.values() == state.held(latch).values())
}

// Whether each node shows what it holds once the lines of a log are fired.
fn all_show_what_they_hold(
    alloc: Global,
    plan: &Plan<'_>,
    vectors: &Vectors,
    log: &str,
) -> Result<bool, OutOfMemory>
    requires width { vectors.now.width ≡ length (columns plan.now.split.circuit) }
    requires slack { plan.now.split.slack ≡ 0 }
{
    let latches = plan.latches();
    let Ok(log) = lines(alloc, log.as_bytes()) else {
        return Ok(false);
    };
    let Ok(state) = replay(alloc, plan, vectors, &log) else {
        return Ok(false);
    };
    for number in 0..latches.bits().len() {
        if !shows_what_it_holds(alloc, latches, &state, number)? {
            return Ok(false);
        }
    }
    Ok(true)
}

// Whether each node shows what it holds behind each line of a log.
fn each_firing_shows_what_is_held(
    alloc: Global,
    plan: &Plan<'_>,
    vectors: &Vectors,
    log: &str,
) -> Result<bool, OutOfMemory> {
    let latches = plan.latches();
    if latches.slack() != 0 || vectors.width() != latches.netlist().columns().len() {
        return Ok(false);
    }
    let mut begun = String::new(alloc);
    for line in log.lines() {
        begun.push_str(line)?;
        begun.push_str("\n")?;
        if !all_show_what_they_hold(alloc, plan, vectors, begun.as_str())? {
            return Ok(false);
        }
    }
    Ok(true)
}

// The same of a design, with the log behind the trace of a run.
fn each_firing_of_a_run_shows(
    alloc: Global,
    netlist: &Netlist,
    vectors: &Vectors,
    run: &str,
) -> Result<bool, Stop> {
    let latches = split_groups(alloc, "n", netlist, Mode::Each, &no_groups(alloc))?;
    let Ok(plan) = own_plan(alloc, latches) else {
        return Err(Stop::Memory);
    };
    match run.split_once("firings\n") {
        Some((_, log)) => Ok(each_firing_shows_what_is_held(alloc, &plan, vectors, log)?),
        None => Ok(false),
    }
}

// The same of the texts of a design and of a run.
fn each_firing_in_texts_shows(alloc: Global, net: &str, run: &str) -> Result<bool, Stop> {
    let mut files = files(alloc, &[("n", net), ("v", VECTORS)])?;
    let netlist = read_netlist(alloc, &mut files, "n")?;
    let vectors = read_rows(alloc, &mut files, "v", &netlist)?;
    each_firing_of_a_run_shows(alloc, &netlist, &vectors, run)
}

#[test]
fn each_node_shows_what_it_holds_at_each_firing(rt: HostRuntime) -> Result<(), Fail> {
    let net = tangle(rt.alloc(), 1)?;
    // A stop behind all firings, so that four workers fire whether that pays or not.
    let files = [("n", net.as_str()), ("v", VECTORS)];
    let Some(run) = printed(
        &rt,
        &files,
        "desync run n v --jobs 4 --log --stop 9999",
        &OpenGate,
    ) else {
        panic!(rt; "no log");
    };
    let all = each_firing_in_texts_shows(rt.alloc(), net.as_str(), run.as_str());
    assert!(rt; all.is_ok_and(|all| all));
    Ok(())
}
