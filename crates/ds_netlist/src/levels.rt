//! The levels of nets, by the order that the tables ask for.
ghost use Rattle.std.specs.Prelude.{◌≡◌, ◌⊎◌, ◌<◌, ◌++◌, ℕ, length, slice_index, All, IfOk, IfErr};
ghost use Rattle.std.specs.Prelude.{OnOk};
ghost use Rattle.ds_netlist.specs.Edges.{AreNetRanks, IsCycleOnly, edges_into, edges_of, floor_in};
ghost use Rattle.ds_netlist.specs.declared.fault.NetFault.TheVariants.{CombinationalCycle, Memory};

use crate::NetFault;
use ds_base::{NetId, Seq};
use ds_design::{Design, Gate};
use ds_rank::{Edge, OrderFault, least_ranks};
use std::alloc::{AllocError, Global};

// The rank of each net, or a cycle.
pub(crate) fn level_nets(alloc: Global, design: &Design) -> Result<Vec<u64>, NetFault>
    ensures ok { IfOk result (λ v. AreNetRanks design.now v.items) }
    ensures fault { IfErr result (λ fault. IsCycleOnly design.now fault) }
{
    let tables = design.tables();
    let edges = edges(alloc, tables)?;
    let floors = floors(alloc, tables, design.nets().len())?;
    match least_ranks(alloc, floors.as_slice(), edges.as_slice()) {
        Ok(levels) => Ok(levels),
        Err(OrderFault::Cycle(nodes)) => Err(cycle_of(alloc, nodes.as_slice())),
        Err(OrderFault::Memory) => Err(NetFault::Memory),
    }
}

// 1 for each net that a table drives.
fn floors(alloc: Global, tables: &[Gate], count: usize) -> Result<Vec<u64>, AllocError>
    requires inside { All (λ t. t.output < count) tables.now }
    ensures ok { IfOk result (λ v. (length v.items ≡ count)
        × ((net : ℕ) → net < count → slice_index v.items net ≡ floor_in tables.now net)) }
{
    let mut floors: Vec<u64> = vec![in alloc; 0; count]?;
    for table in tables {
        floors[table.output.index()] = 1;
    }
    Ok(floors)
}

// An edge from each input of a table to its output.
fn edges(alloc: Global, tables: &[Gate]) -> Result<Vec<Edge>, AllocError>
    ensures ok { IfOk result (λ v. v.items ≡ edges_of tables.now) }
{
    let mut edges: Vec<Edge> = Vec::new(alloc);
    for table in tables {
        push_edges(&mut edges, table.table.inputs(), table.output)?;
    }
    Ok(edges)
}

// Adds an edge from each of the nets to the output.
fn push_edges(edges: &mut Vec<Edge>, inputs: &[NetId], output: NetId) -> Result<(), AllocError>
    ensures ok { OnOk result (edges.new.items ≡ edges.old.items ++ edges_into output inputs.now) }
{
    for net in inputs {
        edges.push(Edge {
            source: net.number(),
            target: output.number(),
        })?;
    }
    Ok(())
}

// The cycle of nets with these numbers.
fn cycle_of(alloc: Global, nodes: &[u32]) -> NetFault
    ensures value { (result ≡ Memory) ⊎ (result ≡ CombinationalCycle nodes.now) }
{
    match ids(alloc, nodes) {
        Ok(nets) => NetFault::CombinationalCycle(Seq::of(nets)),
        Err(_) => NetFault::Memory,
    }
}

// The nets with these numbers.
fn ids(alloc: Global, nodes: &[u32]) -> Result<Vec<NetId>, AllocError>
    ensures ok { IfOk result (λ v. v.items ≡ nodes.now) }
{
    nodes.iter().map(|node| NetId::new(*node)).collect(alloc)
}
