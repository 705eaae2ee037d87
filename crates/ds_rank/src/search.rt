//! A search along the edges into each node.
ghost use Rattle.std.specs.Prelude.{◌≡◌, ◌<◌, ◌≤◌, ◌^◌, ◌+◌, ◌-◌, ℕ, List, [], ◌∷◌, ◌++◌, Some};
ghost use Rattle.std.specs.Prelude.{None, length, max, sum, take, All, MatchOption, Err, IfOk};
ghost use Rattle.std.specs.Prelude.{IfErr, OnOk, OnErr, slice_index, slice_set};
ghost use Rattle.ds_rank.specs.Order.{HasEdge, IsCycle};
ghost use Rattle.ds_rank.specs.Search.{EndsAreNodes, HasRoom, IsSearchBegun, IsLast, IsSearch};
ghost use Rattle.ds_rank.specs.Search.{IsStep};
ghost use Rattle.ds_rank.specs.Search.{IsVisit, State};

use crate::cycle::cycle_through;
use crate::links::links;
use crate::{Edge, OrderFault};
use ds_base::OutOfMemory;
use std::alloc::Global;
use std::marker::Model;

// Where a search along the edges stands. A node's color is 2 before it is met, 1 while it is on
// the path and 0 once it is done.
#[derive(Drop)]
pub(crate) struct Search {
    link: Vec<usize>,
    next: Vec<usize>,
    color: Vec<u64>,
    ranks: Vec<u64>,
    path: Vec<u32>,
}

impl Model for Search {
    ghost use Rattle.ds_rank.specs.Search.{State};

    ghost Value = { State };

    ghost view = { λ s. record {
      link = s.link.items;
      next = s.next.items;
      color = s.color.items;
      ranks = s.ranks.items;
      path = s.path.items;
    } };
}

impl Search {
    pub(crate) fn new(alloc: Global, floors: &[u64], edges: &[Edge]) -> Result<Search, OutOfMemory>
        requires ends { EndsAreNodes (length floors.now) edges.now }
        ensures { IfOk result (IsSearchBegun edges.now floors.now) }
    {
        let (next, link) = links(alloc, floors.len(), edges)?;
        Ok(Search {
            link,
            next,
            color: vec![in alloc; 2; floors.len()]?,
            ranks: floors.to_vec(alloc)?,
            path: Vec::new(alloc),
        })
    }

    pub(crate) fn into_ranks(self) -> Vec<u64>
        ensures { result.items ≡ self.ranks }
    {
        self.ranks
    }

    pub(crate) fn color_of(&self, node: u32) -> u64
        requires { node < length self.now.color }
        ensures { result ≡ slice_index self.now.color node }
    {
        self.color[node as usize]
    }

    // Follows the edges into a new node to their end.
    pub(crate) fn visit(
        &mut self,
        alloc: Global,
        floors: &[u64],
        edges: &[Edge],
        root: u32,
    ) -> Result<(), OrderFault>
        requires ends { EndsAreNodes (length floors.now) edges.now }
        requires room { HasRoom floors.now }
        requires search { IsSearch edges.now floors.now self.old }
        requires fresh { (self.old.path ≡ []) × (root < length floors.now)
            × (slice_index self.old.color root ≡ 2) }
        ensures ok { OnOk result (IsVisit edges.now floors.now root self.old self.new) }
        ensures size { (nodes : _) → result ≡ Err (OrderFault.Cycle nodes)
            → length nodes.items ≤ length floors.now }
        ensures cycle { (nodes : _) → result ≡ Err (OrderFault.Cycle nodes)
            → IsCycle (HasEdge edges.now) nodes.items }
    {
        self.enter(root)?;
        'walk: while let Some(node) = self.last() {
            self.step(alloc, floors, edges, node)?;
        }
        Ok(())
    }

    // The end of the path.
    fn last(&self) -> Option<u32>
        ensures { MatchOption result (self.now.path ≡ []) (λ node. IsLast self.now.path node) }
    {
        self.path.last().copied()
    }

    fn path(&self) -> &[u32]
        ensures { result.now ≡ self.now.path }
    {
        self.path.as_slice()
    }

    // The edge into the node that is to be looked at next, one more than its place; 0 for none.
    fn next_of(&self, node: u32) -> usize
        requires { node < length self.now.next }
        ensures { result ≡ slice_index self.now.next node }
    {
        self.next[node as usize]
    }

    // One step at the end of the path.
    fn step(
        &mut self,
        alloc: Global,
        floors: &[u64],
        edges: &[Edge],
        node: u32,
    ) -> Result<(), OrderFault>
        requires ends { EndsAreNodes (length floors.now) edges.now }
        requires room { HasRoom floors.now }
        requires search { IsSearch edges.now floors.now self.old }
        requires last { IsLast self.old.path node }
        ensures ok { OnOk result (IsStep edges.now floors.now self.old self.new) }
        ensures size { (nodes : _) → result ≡ Err (OrderFault.Cycle nodes)
            → length nodes.items ≤ length floors.now }
        ensures cycle { (nodes : _) → result ≡ Err (OrderFault.Cycle nodes)
            → IsCycle (HasEdge edges.now) nodes.items }
    {
        let k = self.next_of(node);
        if k == 0 {
            self.finish(node);
            return Ok(());
        }
        let source = edges[k - 1].source;
        let color = self.color_of(source);
        if color == 0 {
            self.pass(node, source, k - 1);
            return Ok(());
        }
        if color == 1 {
            let nodes = cycle_through(alloc, edges, self.path(), source)?;
            return Err(OrderFault::Cycle(nodes));
        }
        self.enter(source)?;
        Ok(())
    }

    // The node leaves the path.
    fn finish(&mut self, node: u32)
        requires inside { node < length self.old.color }
        ensures { self.new ≡ record self.old {
          color = slice_set self.old.color node 0;
          path = take (length self.old.path - 1) self.old.path;
        } }
    {
        self.color[node as usize] = 0;
        let _ = self.path.pop();
    }

    // The node joins the path.
    fn enter(&mut self, node: u32) -> Result<(), OutOfMemory>
        requires inside { node < length self.old.color }
        ensures { OnOk result (self.new ≡ record self.old {
          color = slice_set self.old.color node 1;
          path = self.old.path ++ node ∷ [];
        }) }
    {
        self.path.push(node)?;
        self.color[node as usize] = 1;
        Ok(())
    }

    // The node comes after a source that is done.
    fn pass(&mut self, node: u32, source: u32, k: usize)
        requires inside { (node < length self.old.next) × (node < length self.old.ranks)
            × (source < length self.old.ranks) × (k < length self.old.link) }
        requires room { slice_index self.old.ranks source + 1 < 2 ^ 64 }
        ensures { self.new ≡ record self.old {
          next = slice_set self.old.next node (slice_index self.old.link k);
          ranks = slice_set self.old.ranks node
              (max (slice_index self.old.ranks node) (slice_index self.old.ranks source + 1));
        } }
    {
        let above = self.ranks[source as usize] + 1;
        let rank = self.ranks[node as usize].max(above);
        self.ranks[node as usize] = rank;
        self.next[node as usize] = self.link[k];
    }
}
