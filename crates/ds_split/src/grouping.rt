//! The clusters of a netlist's registers.
ghost use Rattle.std.specs.Prelude.{◌≡◌, ◌<◌, ◌≤◌, ◌+◌, ◌^◌, length, slice_set};
ghost use Rattle.std.specs.Prelude.{All, IfOk, IfErr, OnOk};
ghost use Rattle.ds_base.specs.Limit.{most_of};
ghost use Rattle.ds_base.specs.declared.number.Limit.TheVariants.{Clusters as MostClusters};
ghost use Rattle.ds_design.specs.Groups.{AreDisjoint};
ghost use Rattle.ds_split.specs.Cluster.{IsClustering};
ghost use Rattle.ds_split.specs.Grouped.{BelongTogether, IsGroupedClustering, IsGroupedFault};
ghost use Rattle.ds_split.specs.Groups.{AreGroups, with_member};
ghost use Rattle.ds_split.specs.Keyed.{HaveOneKey, IsPlaceOf};
ghost use Rattle.ds_split.specs.Split.{IsClusterFault};

use crate::register_keys::keys_of;
use crate::{Clusters, SplitFault};
use ds_base::{Limit, Mode, OutOfMemory, RegId, Seq};
use ds_design::{Design, Netlist};
use std::alloc::Global;

/// The registers of a netlist in clusters. With `Each` every register stands alone, with `One` all
/// stand together, and with `Bus` those whose output nets are of one copy of a model and have one
/// name once a trailing `[digits]` is cut off. Clusters come by their first registers.
/// `TooMany(Clusters)` where there are more than 4,096.
pub fn cluster(alloc: Global, netlist: &Netlist, mode: Mode) -> Result<Clusters, SplitFault>
    ensures ok { IfOk result (IsClustering netlist.now mode) }
    ensures ok_few { IfOk result (λ clusters. length clusters ≤ most_of MostClusters) }

    ensures fault { IfErr result (IsClusterFault netlist.now mode) }
{
    let none = Seq::new(alloc);
    cluster_groups(alloc, netlist, mode, none.as_slice())
}

/// The same where some registers stand in groups: each group is a cluster, and the registers that
/// no group has make clusters among themselves, by the mode.
pub fn cluster_groups(
    alloc: Global,
    netlist: &Netlist,
    mode: Mode,
    groups: &[Seq<RegId>],
) -> Result<Clusters, SplitFault>
    requires { AreDisjoint (length netlist.now.registers) groups.now }

    ensures ok { IfOk result (IsGroupedClustering netlist.now mode groups.now) }
    ensures ok_few { IfOk result (λ clusters. length clusters ≤ most_of MostClusters) }

    ensures fault { IfErr result (IsGroupedFault netlist.now mode groups.now) }
{
    let clusters = clusters_of(alloc, netlist.design(), mode, groups)?;
    if clusters.len() as u64 > Limit::Clusters.most() {
        return Err(SplitFault::TooMany(Limit::Clusters));
    }
    Ok(Clusters::of(Seq::of(clusters)))
}

// The registers of each cluster.
fn clusters_of(
    alloc: Global,
    design: &Design,
    mode: Mode,
    groups: &[Seq<RegId>],
) -> Result<Vec<Seq<RegId>>, OutOfMemory>
    requires { AreDisjoint (length design.now.registers) groups.now }
    ensures { IfOk result (λ clusters. AreGroups (BelongTogether design.now mode groups.now)
        (length design.now.registers) clusters.items) }
{
    let keys = keys_of(alloc, design, mode, groups)?;
    Ok(by_keys(alloc, &keys, groups.len() + design.registers().len())?)
}

// A cluster for each key that registers have. All keys are below `most`.
fn by_keys(alloc: Global, keys: &[usize], most: usize) -> Result<Vec<Seq<RegId>>, OutOfMemory>
    requires few { All (λ key. key < most) keys.now }
    requires short { length keys.now < 2 ^ 32 }
    ensures { IfOk result (λ groups.
        AreGroups (HaveOneKey keys.now) (length keys.now) groups.items) }
{
    let mut places = vec![in alloc; 0; most]?;
    let mut groups = Vec::new(alloc);
    for i in 0..keys.len() {
        let place = place_of(&mut places, keys[i], groups.len());
        add(alloc, &mut groups, place, RegId::new(i as u32))?;
    }
    Ok(groups)
}

// The place of the cluster of a key: the next one where there is none yet.
fn place_of(places: &mut Vec<usize>, key: usize, next: usize) -> usize
    requires inside { key < length places.old.items }
    requires few { next + 1 < 2 ^ 64 }
    ensures place { IsPlaceOf places.old.items key next result }
    ensures kept { places.new.items ≡ slice_set places.old.items key (result + 1) }
{
    let place = if places[key] == 0 {
        next
    } else {
        places[key] - 1
    };
    places[key] = place + 1;
    place
}

// Puts a register into the cluster at a place, or into a new one behind the last.
fn add(
    alloc: Global,
    groups: &mut Vec<Seq<RegId>>,
    place: usize,
    register: RegId,
) -> Result<(), OutOfMemory>
    ensures { OnOk result (groups.new.items ≡ with_member groups.old.items place register) }
{
    if place < groups.len() {
        groups[place].push(register)?;
    } else {
        let mut registers = Seq::new(alloc);
        registers.push(register)?;
        groups.push(registers)?;
    }
    Ok(())
}
