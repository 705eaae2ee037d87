//! The edges into each node.
ghost use Rattle.std.specs.Prelude.{◌≡◌, ◌<◌, ◌≤◌, ◌^◌, ℕ, List, length, All, IfOk};
ghost use Rattle.ds_rank.specs.Search.{EndsAreNodes, IsLinkedTo};

use crate::Edge;
use ds_base::OutOfMemory;
use std::alloc::Global;

// The edges into each node as a chain from its last edge on. A number k stands for edge k - 1, and
// 0 for the end.
pub(crate) fn links(
    alloc: Global,
    count: usize,
    edges: &[Edge],
) -> Result<(Vec<usize>, Vec<usize>), OutOfMemory>
    requires ends { EndsAreNodes count edges.now }
    ensures { IfOk result (λ r. (length r.0.items ≡ count)
        × IsLinkedTo count edges.now (length edges.now) r.0.items r.1.items) }
{
    let mut heads: Vec<usize> = vec![in alloc; 0; count]?;
    let mut link: Vec<usize> = Vec::new(alloc);
    for (k, edge) in edges.iter().enumerate() {
        let target = edge.target as usize;
        link.push(heads[target])?;
        heads[target] = k + 1;
    }
    Ok((heads, link))
}
