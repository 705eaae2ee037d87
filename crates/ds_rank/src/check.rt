//! Numbers that rise along the arcs without tokens.
ghost use Rattle.std.specs.Prelude.{◌≡◌, ◌<◌, length, slice_index, IsTrue, ◌↔◌};
ghost use Rattle.ds_rank.specs.Rank.{RisesAlong, RisesOn};

use crate::Ranks;
use ds_marked::{Arc, Marked};

/// Whether the numbers rise along each arc without tokens.
pub fn check_ranks(graph: &Marked, ranks: &Ranks) -> bool
    requires one_each { length ranks.now ≡ length graph.now.events }
    ensures { IsTrue result ↔ RisesAlong graph.now ranks.now }
{
    graph.arcs().iter().all(|arc| rises(arc, ranks))
}

// Whether the numbers rise along the arc, if it has no tokens.
fn rises(arc: &Arc, ranks: &Ranks) -> bool
    requires ends { (arc.now.source < length ranks.now) × (arc.now.target < length ranks.now) }
    ensures { IsTrue result ↔ RisesOn ranks.now arc.now }
{
    arc.tokens != 0 || ranks.at(arc.source) < ranks.at(arc.target)
}
