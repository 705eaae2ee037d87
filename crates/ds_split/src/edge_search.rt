//! A search for data edges, consumer by consumer.
ghost use Rattle.std.specs.Prelude.{◌≡◌, ◌<◌, [], length, All, Contains, replicate, slice_index};
ghost use Rattle.std.specs.Prelude.{IfOk, OnOk};
ghost use Rattle.ds_split.specs.Search.{IsBefore, IsAt, HasMet, IsCause, with_edge};

use ds_base::{LatchId, NetId, OutOfMemory};
use ds_latch::DataEdge;
use ds_settle::Finder;
use std::alloc::Global;
use std::marker::Model;

// The producer of each net, one more than its number, or 0; for each producer the last consumer
// that it was met for; and the edges that are found.
pub(crate) struct EdgeSearch {
    producers: Vec<u32>,
    seen: Vec<u32>,
    edges: Vec<DataEdge>,
}

impl Drop for EdgeSearch {
    fn drop(self) {
        let EdgeSearch {
            producers: _,
            seen: _,
            edges: _,
        } = self;
    }
}

impl Model for EdgeSearch {
    ghost use Rattle.ds_split.specs.Search.{Found};

    ghost Value = { Found };

    ghost view = { λ s. record {
      producers = s.producers.items;
      seen = s.seen.items;
      edges = s.edges.items;
    } };
}

impl EdgeSearch {
    // Without edges.
    pub(crate) fn new(alloc: Global, producers: Vec<u32>, nodes: usize) -> Result<Self, OutOfMemory>
        ensures { IfOk result (λ s. s ≡ record {
          producers = producers.items;
          seen = replicate nodes 0;
          edges = [];
        }) }
    {
        Ok(EdgeSearch {
            producers,
            seen: vec![in alloc; 0; nodes]?,
            edges: Vec::new(alloc),
        })
    }

    // How many edges are found.
    pub(crate) fn len(&self) -> usize
        ensures { result ≡ length self.now.edges }
    {
        self.edges.len()
    }

    // The edges.
    pub(crate) fn into_edges(self) -> Vec<DataEdge>
        ensures { result.items ≡ self.edges }
    {
        let EdgeSearch {
            producers: _,
            seen: _,
            edges,
        } = self;
        edges
    }

    // Finds the edges into a consumer that has these nets.
    pub(crate) fn consume(
        &mut self,
        alloc: Global,
        finder: &mut Finder<'_>,
        nets: &[NetId],
        consumer: u32,
    ) -> Result<(), OutOfMemory>
        requires nets { All (λ net. net < length finder.old.nets) nets.now }
        requires producers { length self.old.producers ≡ length finder.old.nets }
        requires before { IsBefore consumer self.old }
        ensures ok { OnOk result (HasMet consumer self.old (IsCause finder.old nets.now) self.new) }
        ensures same { finder.new ≡ finder.old }
    {
        let cone = finder.cone(alloc, nets)?;
        self.meet_all(cone.sources(), consumer)?;
        Ok(())
    }

    // An edge from the producer of each net.
    fn meet_all(&mut self, nets: &[NetId], consumer: u32) -> Result<(), OutOfMemory>
        requires within { All (λ net. net < length self.old.producers) nets.now }
        requires at { IsAt consumer self.old }
        ensures { OnOk result (HasMet consumer self.old (Contains nets.now) self.new) }
    {
        for net in nets {
            self.meet(*net, consumer)?;
        }
        Ok(())
    }

    // An edge from the producer of a net, where it has one that has no edge yet.
    fn meet(&mut self, net: NetId, consumer: u32) -> Result<(), OutOfMemory>
        requires within { net < length self.old.producers }
        requires at { IsAt consumer self.old }
        ensures { OnOk result (HasMet consumer self.old (λ other. other ≡ net) self.new) }
    {
        let label = self.label_of(net);
        if label == 0 {
            return Ok(());
        }
        let producer = label - 1;
        if self.last_of(producer) == consumer {
            return Ok(());
        }
        self.push(producer, consumer)?;
        Ok(())
    }

    // The producer of a net, one more than its number, or 0.
    fn label_of(&self, net: NetId) -> u32
        requires { net < length self.now.producers }
        ensures { result ≡ slice_index self.now.producers net }
    {
        self.producers[net.index()]
    }

    // The last consumer that a producer was met for.
    fn last_of(&self, producer: u32) -> u32
        requires { producer < length self.now.seen }
        ensures { result ≡ slice_index self.now.seen producer }
    {
        self.seen[producer as usize]
    }

    // One edge more.
    pub(crate) fn push(&mut self, producer: u32, consumer: u32) -> Result<(), OutOfMemory>
        requires { producer < length self.old.seen }
        ensures { OnOk result (self.new ≡ with_edge self.old producer consumer) }
    {
        self.edges.push(DataEdge {
            producer: LatchId::new(producer),
            consumer: LatchId::new(consumer),
        })?;
        self.seen[producer as usize] = consumer;
        Ok(())
    }
}
