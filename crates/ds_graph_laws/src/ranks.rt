//! Laws of ranks and cycles.
ghost use Rattle.ds_graph_laws.specs.Ranked.{EventsHaveRanksOrCycle, LiveGraphsHaveRanks};
ghost use Rattle.ds_graph_laws.specs.Ranked.{RanksOrCycle};

/// Edges between nodes give the nodes ranks, above any floors, or some of them lead in a circle.
pub fn ranks_or_cycle()
    ensures { RanksOrCycle }
{}

/// The arcs without tokens of a graph give its events ranks, or some of them lead in a circle.
pub fn events_have_ranks_or_cycle()
    ensures { EventsHaveRanksOrCycle }
{}

/// A graph in which nothing waits for itself has ranks.
pub fn live_graphs_have_ranks()
    ensures { LiveGraphsHaveRanks }
{}
