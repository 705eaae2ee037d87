//! A split design: the netlist, its clusters of registers, the nets of each node, and the data
//! edges between nodes.
ghost use Rattle.std.specs.Prelude.{◌≡◌, ◌≢◌, ◌+◌, ◌*◌, ◌<◌, ◌≤◌, ◌^◌, ℕ, List, All, AllPairs};
ghost use Rattle.std.specs.Prelude.{Contains, length, slice_index_or, []};
ghost use Rattle.ds_latch.specs.Node.{Split, IsNode, number_of, nodes, nets_of, begun};
ghost use Rattle.ds_latch.specs.declared.node.Node.{Node};
ghost use Rattle.ds_latch.specs.Node.{slackened};
ghost use Rattle.ds_latch.specs.Latches.{AreParts, HasEdges};
ghost use Rattle.ds_latch.specs.Plan.{IsSplit};

use ds_base::{LatchId, NetId, RegId, Row3, Seq};
use ds_design::Netlist;
use std::marker::Model;

/// A data edge: a producer and a consumer.
#[derive(Clone, Copy, Debug)]
pub struct Edge {
    pub producer: LatchId,
    pub consumer: LatchId,
}

/// A netlist whose registers are split into masters and slaves, cluster by cluster.
pub struct Latches<'a> {
    netlist: &'a Netlist,
    initial: Row3,
    clusters: Seq<Seq<RegId>>,
    bits: Seq<Seq<NetId>>,
    edges: Seq<Edge>,
    slack: u8,
}

impl Drop for Latches<'_> {
    fn drop(self) {
        let Latches {
            netlist: _,
            initial: _,
            clusters: _,
            bits: _,
            edges: _,
            slack: _,
        } = self;
    }
}

impl<'a> Model for Latches<'a> {
    ghost use Rattle.ds_latch.specs.Node.{Split};
    ghost use Rattle.ds_latch.specs.Latches.{AreParts};

    ghost Value = { Split };

    ghost view = { λ l. record {
      circuit = l.netlist.now;
      clusters = l.clusters;
      initial = l.initial;
      slack = l.slack;
    } };

    ghost invariant = { λ l. AreParts
        (record {
          circuit = l.netlist.now;
          clusters = l.clusters;
          initial = l.initial;
          slack = l.slack;
        }) l.bits l.edges };
}

impl<'a> Latches<'a> {
    /// Without slack.
    pub fn of(
        netlist: &'a Netlist,
        initial: Row3,
        clusters: Seq<Seq<RegId>>,
        bits: Seq<Seq<NetId>>,
        edges: Seq<Edge>,
    ) -> Self
        requires { AreParts (record {
          circuit = netlist.now;
          clusters = clusters;
          initial = initial;
          slack = 0;
        }) bits edges }
        ensures { result ≡ record {
          circuit = netlist.now;
          clusters = clusters;
          initial = initial;
          slack = 0;
        } }
    {
        Latches {
            netlist,
            initial,
            clusters,
            bits,
            edges,
            slack: 0,
        }
    }

    /// The netlist that was split.
    pub fn netlist(&self) -> &'a Netlist
        ensures netlist { result.now ≡ self.now.circuit }
        ensures split { IsSplit self.now }
    {
        self.netlist
    }

    /// The values that the registers start at.
    pub fn initial(&self) -> &Row3
        ensures initial { result.now ≡ self.now.initial }
        ensures split { IsSplit self.now }
    {
        &self.initial
    }

    /// The registers of each cluster.
    pub fn clusters(&self) -> &[Seq<RegId>]
        ensures clusters { result.now ≡ self.now.clusters }
        ensures split { IsSplit self.now }
    {
        self.clusters.as_slice()
    }

    /// How many nodes there are.
    pub fn nodes(&self) -> usize
        ensures nodes { result ≡ nodes self.now }
        ensures few { 2 * nodes self.now ≤ 1048576 }
        ensures split { IsSplit self.now }
    {
        self.bits.as_slice().len()
    }

    /// The nets of each node.
    pub fn bits(&self) -> &[Seq<NetId>]
        ensures one_each { length result.now ≡ nodes self.now }
        ensures nets { (n : Node) → IsNode self.now n
            → slice_index_or result.now (number_of n) [] ≡ nets_of self.now n }
        ensures few { All (λ nets. length nets < 2 ^ 32) result.now }
    {
        // The outputs are read for the fact that none stands there twice.
        let design = self.netlist.design();
        let _outputs = design.outputs();
        self.bits.as_slice()
    }

    /// The data edges, each once.
    pub fn edges(&self) -> &[Edge]
        ensures edges { HasEdges self.now result.now }
        ensures once { AllPairs (λ a b. a ≢ b) result.now }
        ensures few { 2 * nodes self.now + 2 * length result.now ≤ 1048576 }
    {
        self.edges.as_slice()
    }

    /// How many openings a producer may run ahead of its consumers.
    pub fn slack(&self) -> u8
        ensures slack { result ≡ self.now.slack }
        ensures low { self.now.slack ≤ 15 }
    {
        self.slack
    }

    /// The same with this slack.
    pub fn with_slack(mut self, slack: u8) -> Self
        requires { slack ≤ 15 }
        ensures { result ≡ slackened self.entry slack }
    {
        self.slack = slack;
        self
    }

    /// The registers start as this row says.
    pub fn begin(&mut self, row: &Row3)
        requires { length row.now ≡ length self.old.circuit.registers }
        ensures { self.new ≡ begun self.old row.now }
    {
        self.initial.copy_from(row);
    }
}
