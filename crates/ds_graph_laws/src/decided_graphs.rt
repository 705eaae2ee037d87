//! Laws of graphs: each is acceptable or has a fault.
ghost use Rattle.ds_graph_laws.specs.DecidedGraphs.{EventsAreDecided, GraphsAreDecided};

/// Each event of a node is one of the graph, or there is a first one that the graph lacks.
pub fn events_are_decided()
    ensures { EventsAreDecided }
{}

/// A graph is acceptable for a split design whose data edges are listed, or has a fault.
pub fn graphs_are_decided()
    ensures { GraphsAreDecided }
{}
