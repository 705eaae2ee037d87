//! The split of a netlist into latches, and the clusters of its registers.
ghost use Rattle.std.specs.Prelude.{◌≡◌, ◌≤◌, ℕ, List, length};
ghost use Rattle.ds_design.specs.Groups.{AreDisjoint};
ghost use Rattle.ds_stage.specs.ClustersStage.{clustered_stage, clusters_stage};
ghost use Rattle.ds_stage.specs.Ends.{Answers, Never, RoseIn, SaysSplit, UnlessUnread};
ghost use Rattle.ds_stage.specs.SplitStage.{parted_stage, split_stage};

use crate::groups::wanted_groups;
use crate::source::passed_limit;
use crate::splitting::Splitting;
use crate::stop::Stop;
use ds_base::Mode;
use ds_design::Netlist;
use ds_groups::Groups;
use ds_latch::Latches;
use ds_outside::Files;
use ds_split::{Clusters, SplitFault, cluster_groups, split};
use std::alloc::Global;

/// A netlist split into latches, its registers in the clusters of the groups of a file, where one
/// is named, and of a mode, or what refuses it. `file` is the netlist's.
pub fn split_netlist<'a, F: Files>(
    alloc: Global,
    files: &mut F,
    file: &str,
    netlist: &'a Netlist,
    splitting: Splitting<'_>,
) -> Result<Latches<'a>, Stop>
    ensures value { Answers (split_stage (F.held files.old) file.now splitting.entry.groups.now
        splitting.entry.clusters netlist.entry.now)
        (RoseIn (F.faults files.old) (F.faults files.new)) result }

    ensures same_held { F.held files.new ≡ F.held files.old }
    ensures same_reads { UnlessUnread result (F.faults files.new ≡ F.faults files.old) }
    ensures never_falls { (w : _) (n : List ℕ) → F.faults files.old w n ≤ F.faults files.new w n }
{
    let groups = wanted_groups(alloc, files, splitting.groups, netlist)?;
    split_groups(alloc, file, netlist, splitting.clusters, &groups)
}

/// The same, with groups that are there.
#[tactic(none)]
pub fn split_groups<'a>(
    alloc: Global,
    file: &str,
    netlist: &'a Netlist,
    mode: Mode,
    groups: &Groups,
) -> Result<Latches<'a>, Stop>
    requires { AreDisjoint (length netlist.now.registers) groups.now }
    ensures { Answers (parted_stage file.now mode netlist.entry.now groups.now) Never result }
{
    let clusters = clusters_by(alloc, file, netlist, mode, groups)?;
    match split(alloc, netlist, &clusters) {
        Ok(latches) => {
            // Read for the facts that are known of the edges.
            let _edges = latches.edges();
            Ok(latches)
        }
        Err(fault) => Err(split_stop(alloc, file, fault)),
    }
}

/// The clusters of a netlist's registers, by the groups of a file, where one is named, and by a
/// mode, or what refuses them. `file` is the netlist's.
pub fn cluster_netlist<F: Files>(
    alloc: Global,
    files: &mut F,
    file: &str,
    netlist: &Netlist,
    splitting: Splitting<'_>,
) -> Result<Clusters, Stop>
    ensures value { Answers (clustered_stage (F.held files.old) file.now splitting.entry.groups.now
        splitting.entry.clusters netlist.now)
        (RoseIn (F.faults files.old) (F.faults files.new)) result }

    ensures same_held { F.held files.new ≡ F.held files.old }
    ensures same_reads { UnlessUnread result (F.faults files.new ≡ F.faults files.old) }
    ensures never_falls { (w : _) (n : List ℕ) → F.faults files.old w n ≤ F.faults files.new w n }
{
    let groups = wanted_groups(alloc, files, splitting.groups, netlist)?;
    clusters_by(alloc, file, netlist, splitting.clusters, &groups)
}

// The same, with groups that are there.
fn clusters_by(
    alloc: Global,
    file: &str,
    netlist: &Netlist,
    mode: Mode,
    groups: &Groups,
) -> Result<Clusters, Stop>
    requires { AreDisjoint (length netlist.now.registers) groups.now }
    ensures { Answers (clusters_stage file.now mode netlist.now groups.now) Never result }
{
    match cluster_groups(alloc, netlist, mode, groups.members()) {
        Ok(clusters) => Ok(clusters),
        Err(fault) => Err(split_stop(alloc, file, fault)),
    }
}

// The stop of a fault of clusters or latches.
fn split_stop(alloc: Global, file: &str, fault: SplitFault) -> Stop
    ensures { SaysSplit file.now fault result }
{
    match fault {
        SplitFault::TooMany(limit) => passed_limit(alloc, file, limit),
        SplitFault::Memory => Stop::Memory,
    }
}
