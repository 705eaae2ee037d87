//! What a run is of: events, arcs and data edges by number, the widths of rows, and how often each
//! event fires. Of the values proofs know, and code does not.
ghost use Rattle.std.specs.Prelude.{◌≡◌, ◌<◌, ℕ, List, length};
ghost use Rattle.ds_base.specs.Values.{Row};
ghost use Rattle.ds_rule.specs.Run.{Run, node_of, next, turns};
ghost use Rattle.ds_rule.specs.Words.{width};

use crate::node_event::NodeEvent;
use crate::sizes::Sizes;
use ds_base::LatchId;
use ds_marked::Arc;
use std::marker::Model;

/// The values of a run, which no code knows before it has fired. Contracts alone read them.
pub trait RunValues {
    // value k of node l is row k * nodes + l
    ghost rows: { Self → List Row };
}

/// A consumer takes its value from a producer: of the same turn (0 tokens), or of the one before (1
/// token).
#[derive(Clone, Copy, Debug)]
pub struct DataEdge {
    pub producer: LatchId,
    pub consumer: LatchId,
    pub tokens: u8,
}

/// What a run is of. Contracts see a run: what is kept here, and the values that `rows` stands for.
///
/// The first nodes, those of the design, have two events each, 2 l (it opens) and 2 l + 1 (it
/// closes). The events of the other nodes, one each, come behind.
#[derive(Drop)]
pub struct TableRun<V: RunValues> {
    sizes: Sizes,
    arcs: Vec<Arc>,
    edges: Vec<DataEdge>,
    lengths: Vec<usize>,
    rows: V,
}

impl<V: RunValues> Model for TableRun<V> {
    ghost use Rattle.ds_rule.specs.Run.{Run};

    ghost Value = { Run };

    ghost view = { λ m. record {
      nodes = m.sizes.nodes;
      design_nodes = m.sizes.design_nodes;
      arcs = m.arcs.items;
      limit = m.sizes.limit;
      edges = m.edges.items;
      lengths = m.lengths.items;
      slack = m.sizes.slack;
      rows = V.rows m.rows;
    } };
}

impl<V: RunValues> TableRun<V> {
    /// Of its parts: how large it is, the arcs between events, the data edges, how many values a
    /// row of each node has, and what stands for the values.
    pub fn of(
        sizes: Sizes,
        arcs: Vec<Arc>,
        edges: Vec<DataEdge>,
        lengths: Vec<usize>,
        rows: V,
    ) -> Self
        ensures { result ≡ record {
          nodes = sizes.nodes;
          design_nodes = sizes.design_nodes;
          arcs = arcs.items;
          limit = sizes.limit;
          edges = edges.items;
          lengths = lengths.items;
          slack = sizes.slack;
          rows = V.rows rows;
        } }
    {
        TableRun {
            sizes,
            arcs,
            edges,
            lengths,
            rows,
        }
    }

    /// How many nodes there are.
    pub fn nodes(&self) -> usize
        ensures { result ≡ self.now.nodes }
    {
        self.sizes.nodes
    }

    /// How many of them are of the design: each has two events.
    pub fn design_nodes(&self) -> usize
        ensures { result ≡ self.now.design_nodes }
    {
        self.sizes.design_nodes
    }

    /// How often each event may fire.
    pub fn limit(&self) -> u64
        ensures { result ≡ self.now.limit }
    {
        self.sizes.limit
    }

    /// How many openings a producer may be ahead.
    pub fn slack(&self) -> usize
        ensures { result ≡ self.now.slack }
    {
        self.sizes.slack
    }

    /// The arcs between events.
    pub fn arcs(&self) -> &[Arc]
        ensures { result.now ≡ self.now.arcs }
    {
        &self.arcs
    }

    /// The data edges.
    pub fn edges(&self) -> &[DataEdge]
        ensures { result.now ≡ self.now.edges }
    {
        &self.edges
    }

    /// How many value words a row of the node has.
    pub fn width(&self, node: usize) -> usize
        requires { node < length self.now.lengths }
        ensures { result ≡ width self.now node }
    {
        let length = self.lengths[node];
        if length % 32 == 0 {
            length / 32
        } else {
            length / 32 + 1
        }
    }
}

impl<V: RunValues> TableRun<V> {
    /// The node of an event.
    pub fn node_of(&self, event: usize) -> usize
        requires { self.now.design_nodes < 4294967296 }
        ensures { result ≡ node_of self.now event }
    {
        NodeEvent::of(event, self.sizes.design_nodes).node
    }

    /// The event that the node fires next, where it has fired so often.
    pub fn next(&self, node: usize, fired: u64) -> usize
        requires { (self.now.design_nodes < 4294967296) × (node < 4294967296) }
        ensures { result ≡ next self.now node fired }
    {
        let design_nodes = self.sizes.design_nodes;
        NodeEvent::next(node, fired, design_nodes).number(design_nodes)
    }

    /// How often the event has fired, where its node has fired so often.
    pub fn turns(&self, event: usize, fired: u64) -> u64
        requires { self.now.design_nodes < 4294967296 }
        ensures { result ≡ turns self.now event fired }
    {
        let event = NodeEvent::of(event, self.sizes.design_nodes);
        event.role.turns(fired)
    }
}
