//! How several workers make the lines of a window.
ghost use Rattle.std.specs.Prelude.{◌<◌, ◌≤◌, ◌≡◌};

use crate::WorkerSettings;
use crate::stored_turns::StoredTurns;
use std::thread::Threads;

// The least bytes of a window whose lines several workers make: fewer are made sooner than a thread
// starts and ends.
const SHARED: usize = 131_072;

// The bytes of a part, about.
const PART: usize = 65_536;

/// So many parts at once, each of at most so many turns and in room for so many bytes. One part: no
/// second worker makes lines.
#[derive(Clone, Copy)]
pub(crate) struct LineSharing<'a, R> {
    pub(crate) threads: &'a R,
    pub(crate) parts: usize,
    pub(crate) turns: usize,
    pub(crate) room: usize,
}

/// How these workers make the lines of what was stored.
pub(crate) fn sharing_of<'a, R: Threads + Sync, G>(
    workers: &WorkerSettings<'a, R, G>,
    stored: &StoredTurns<'_, '_>,
) -> LineSharing<'a, R>
    requires jobs { (0 < workers.now.jobs) × (workers.now.jobs ≤ 64) }
    ensures parts { (0 < result.parts) × (result.parts ≤ 64) }
    ensures turns { (0 < result.turns) × (result.turns ≤ 65536) }
{
    let design = stored.plan.latches().netlist().design();
    // The number of the turn, the spaces and the end of the line take at most 23 bytes, a row
    // without values takes one.
    let line = design
        .outputs()
        .len()
        .saturating_add(design.registers().len())
        .saturating_add(25);
    let turns = (PART / line).max(1);
    let bytes = line.saturating_mul(stored.turns);
    let parts = if bytes < SHARED {
        1
    } else {
        workers.jobs as usize
    };
    LineSharing {
        threads: workers.threads,
        parts,
        turns,
        room: line.saturating_mul(turns),
    }
}
