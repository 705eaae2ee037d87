//! The nets of the nodes.
ghost use Rattle.std.specs.Prelude.{◌≡◌, ◌<◌, ◌++◌, ◌∷◌, [], length, map, All, IfOk};
ghost use Rattle.std.specs.Prelude.{OnOk, slice_index_or};
ghost use Rattle.ds_split.specs.Cluster.{HasEachOnce};
ghost use Rattle.ds_split.specs.Nets.{HasNets};
ghost use Rattle.ds_split.specs.Split.{split_into};

use crate::Clusters;
use ds_base::{NetId, OutOfMemory, RegId, Seq};
use ds_design::{Netlist, Register};
use std::alloc::Global;

// The nets of each node: the columns, the outputs, and for each cluster the data nets of its
// registers and the nets that they drive.
pub(crate) fn node_nets(
    alloc: Global,
    netlist: &Netlist,
    clusters: &Clusters,
) -> Result<Seq<Seq<NetId>>, OutOfMemory>
    requires { HasEachOnce (length netlist.now.registers) clusters.now }
    ensures { IfOk result (HasNets (split_into netlist.now clusters.now)) }
{
    let design = netlist.design();
    let registers = design.registers();
    let mut nets = Vec::new(alloc);
    add_copy(alloc, netlist.columns(), &mut nets)?;
    add_copy(alloc, design.outputs(), &mut nets)?;
    for cluster in clusters.members() {
        add_cluster(alloc, registers, cluster.as_slice(), &mut nets)?;
    }
    Ok(Seq::of(nets))
}

// Adds a copy of these nets.
fn add_copy(alloc: Global, these: &[NetId], nets: &mut Vec<Seq<NetId>>) -> Result<(), OutOfMemory>
    ensures { OnOk result (nets.new.items ≡ nets.old.items ++ these.now ∷ []) }
{
    nets.push(Seq::of(these.to_vec(alloc)?))?;
    Ok(())
}

// Adds the data nets of a cluster's registers, and the nets that they drive.
fn add_cluster(
    alloc: Global,
    registers: &[Register],
    cluster: &[RegId],
    nets: &mut Vec<Seq<NetId>>,
) -> Result<(), OutOfMemory>
    requires { All (λ r. r < length registers.now) cluster.now }
    ensures { OnOk result (nets.new.items ≡
        (nets.old.items
        ++ map (λ r. slice_index_or (map (λ r. r.data_net) registers.now) r 0) cluster.now ∷ [])
        ++ map (λ r. slice_index_or (map (λ r. r.output) registers.now) r 0) cluster.now ∷ []) }
{
    nets.push(data_nets(alloc, registers, cluster)?)?;
    nets.push(driven_nets(alloc, registers, cluster)?)?;
    Ok(())
}

// The data nets of a cluster's registers.
fn data_nets(
    alloc: Global,
    registers: &[Register],
    cluster: &[RegId],
) -> Result<Seq<NetId>, OutOfMemory>
    requires { All (λ r. r < length registers.now) cluster.now }
    ensures { IfOk result (λ nets. nets
        ≡ map (λ r. slice_index_or (map (λ r. r.data_net) registers.now) r 0) cluster.now) }
{
    let mut nets = Vec::new(alloc);
    for register in cluster {
        nets.push(registers[register.index()].data_net)?;
    }
    Ok(Seq::of(nets))
}

// The nets that a cluster's registers drive.
fn driven_nets(
    alloc: Global,
    registers: &[Register],
    cluster: &[RegId],
) -> Result<Seq<NetId>, OutOfMemory>
    requires { All (λ r. r < length registers.now) cluster.now }
    ensures { IfOk result (λ nets. nets
        ≡ map (λ r. slice_index_or (map (λ r. r.output) registers.now) r 0) cluster.now) }
{
    let mut nets = Vec::new(alloc);
    for register in cluster {
        nets.push(registers[register.index()].output)?;
    }
    Ok(Seq::of(nets))
}
