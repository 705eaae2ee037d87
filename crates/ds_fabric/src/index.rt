//! Where the rows and the edges of each node begin, worked out once.
ghost use Rattle.std.specs.Prelude.{◌≡◌, ◌<◌, ◌≤◌, ◌+◌, ℕ, List, IfOk, length, replicate};
ghost use Rattle.ds_rule.specs.Sound.{IsSound, edge_at};
ghost use Rattle.ds_rule.specs.Rows.{IsStarts};
ghost use Rattle.ds_fabric.specs.Ranged.{IsFrom, AreFirstEdges, AreReadWords};
ghost use Rattle.ds_rule.specs.declared.table_run.DataEdge.{DataEdge};

use ds_base::OutOfMemory;
use ds_rule::{DataEdge, RunValues, TableRun};
use std::alloc::Global;

/// Where the rows of each node begin among the words, and its edges among the edges, which stand by
/// consumer, and how many words it reads at most. `firsts` has one place more.
pub struct Index {
    pub starts: Vec<usize>,
    pub firsts: Vec<usize>,
    pub reads: Vec<usize>,
}

impl Drop for Index {
    fn drop(self) {
        let Index {
            starts: _,
            firsts: _,
            reads: _,
        } = self;
    }
}

impl Index {
    /// Of where the rows of each node begin, and how many words it reads.
    pub fn of<V: RunValues>(
        alloc: Global,
        run: &TableRun<V>,
        starts: Vec<usize>,
        reads: Vec<usize>,
    ) -> Result<Index, OutOfMemory>
        requires { IsSound run.now }
        ensures reads { IfOk result (λ x. x.reads.items ≡ reads.items) }
        ensures starts { IfOk result (λ x. x.starts.items ≡ starts.items) }
        ensures firsts { IfOk result (λ x. AreFirstEdges run.now x.firsts.items) }
    {
        let firsts = firsts(alloc, run)?;
        Ok(Index {
            starts,
            firsts,
            reads,
        })
    }
}

/// So many zeros.
pub fn zeros(alloc: Global, count: usize) -> Result<Vec<usize>, OutOfMemory>
    ensures { IfOk result (λ v. v.items ≡ replicate count 0) }
{
    Ok(vec![in alloc; 0usize; count]?)
}

// The first edge of each node.
fn firsts<V: RunValues>(alloc: Global, run: &TableRun<V>) -> Result<Vec<usize>, OutOfMemory>
    requires { IsSound run.now }
    ensures { IfOk result (λ v. AreFirstEdges run.now v.items) }
{
    let edges = run.edges();
    let mut firsts = Vec::new(alloc);
    let mut at = 0;
    for node in 0..run.nodes() + 1 {
        at = skip(run, edges, at, node);
        firsts.push(at)?;
    }
    Ok(firsts)
}

// The first edge whose consumer is not below the node; those before `at` are passed.
fn skip<V: RunValues>(run: &TableRun<V>, edges: &[DataEdge], at: usize, node: usize) -> usize
    requires sound { IsSound run.now }
    requires edges { edges.now ≡ run.now.edges }
    requires passed { (at ≤ length edges.now) × ((k : ℕ) → k < at
        → (edge_at run.now k).consumer < node) }
    ensures { IsFrom run.now node result }
{
    for i in at..edges.len() {
        if edges[i].consumer.index() >= node {
            return i;
        }
    }
    edges.len()
}
