//! The nodes shared out, in as many parts as pay: each worker has one, in which it looks where its
//! own hints name no node that is due. By the hints of the run all parts take about the same work,
//! where cones do not overlap.
ghost use Rattle.std.specs.Prelude.{◌≡◌, ◌<◌, ◌≤◌, IfOk};
ghost use Rattle.ds_runner.specs.Parts.{AreBorders};

use crate::workload::Workload;
use ds_base::{LatchId, OutOfMemory};
use ds_fabric::Compute;
use ds_outside::Gate;
use ds_rule::RunValues;
use std::alloc::Global;

// What the two firings of a node in a turn take beside the work of its opening, counted in tables.
const FIRINGS: u64 = 48;

// The least work of a part in a turn, counted in tables.
const PART: u64 = 1500;

// What several workers add to the work of a turn, counted in tables, of which one takes about 1.4
// nanoseconds: of each node two draws of tickets, which take 56 to 95 nanoseconds each in place of
// 6, and four steps of 6 that take its pass and give it back; and once for all nodes the four lines
// of memory, 137 nanoseconds each, by which two parts hear of each other. Draws go one after
// another, so they are not shared.
const DRAWS: u64 = 120;

const MEETING: u64 = 400;

/// Where the parts begin, of which there are so many, and the number of nodes behind the last.
pub fn borders_of<V: RunValues, C: Compute, G: Gate>(
    alloc: Global,
    workload: &Workload<'_, '_, V, C, G>,
    parts: u32,
) -> Result<Vec<usize>, OutOfMemory>
    requires parts { 0 < parts }
    ensures ok { IfOk result (λ v. AreBorders workload.now.run.nodes parts v.items) }
{
    let each = work_of(workload) / parts as u64;
    let mut borders = Vec::with_capacity(alloc, parts as usize + 1)?;
    let mut at = Border { node: 0, before: 0 };
    for part in 0..parts {
        at = reach(workload, at, each.saturating_mul(part as u64));
        borders.push_reserved(at.node);
    }
    borders.push_reserved(workload.run.nodes());
    Ok(borders)
}

/// How many parts pay for at most so many workers, if the nodes have so much work in a turn. One:
/// by this count several workers take at least two thirds of the time of one. The count is too high
/// where groups read nothing new. One part takes a quarter more than the others.
pub fn paying_parts(nodes: usize, work: u64, most: u32) -> u32
    requires most { 0 < most }
    ensures { (0 < result) × (result ≤ most) }
{
    let parts = (work / PART).min(most as u64) as u32;
    if parts < 2 {
        return 1;
    }
    let part = work / parts as u64;
    let added = DRAWS.saturating_mul(nodes as u64).saturating_add(MEETING);
    let together = part.saturating_add(part / 4).saturating_add(added);
    if together < work / 3 * 2 { parts } else { 1 }
}

/// The work of all nodes in a turn, counted in tables. A hint, as what it is made of.
pub fn work_of<V: RunValues, C: Compute, G: Gate>(workload: &Workload<'_, '_, V, C, G>) -> u64 {
    let mut work: u64 = 0;
    for node in 0..workload.run.nodes() {
        work = work.saturating_add(work_at(workload, node));
    }
    work
}

// A node, and the work of those before it.
#[derive(Clone, Copy)]
struct Border {
    node: usize,
    before: u64,
}

// The next node by whose middle so much work is done.
fn reach<V: RunValues, C: Compute, G: Gate>(
    workload: &Workload<'_, '_, V, C, G>,
    from: Border,
    share: u64,
) -> Border
    requires near { from.node ≤ workload.now.run.nodes }
    ensures up { from.node ≤ result.node }
    ensures near { result.node ≤ workload.now.run.nodes }
{
    let mut at = from;
    for node in from.node..workload.run.nodes() {
        let work = work_at(workload, node);
        if at.before.saturating_add(work / 2) >= share {
            return at;
        }
        at = Border {
            node: node + 1,
            before: at.before.saturating_add(work),
        };
    }
    at
}

// The work of a node in a turn.
fn work_at<V: RunValues, C: Compute, G: Gate>(
    workload: &Workload<'_, '_, V, C, G>,
    node: usize,
) -> u64
    requires near { node < workload.now.run.nodes }
{
    // A run has fewer nodes than a `u32` counts.
    let _nodes = workload.run.nodes();
    FIRINGS.saturating_add(workload.fabric.cost(LatchId::new(node as u32)))
}
