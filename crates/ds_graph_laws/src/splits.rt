//! Laws of what there is for a split design.
ghost use Rattle.ds_graph_laws.specs.CountedArcs.{ControllersAreCounted};
ghost use Rattle.ds_graph_laws.specs.TotalSplits.{ClusteringsExist, ControllersExist};
ghost use Rattle.ds_graph_laws.specs.TotalSplits.{EdgesAreListed};
ghost use Rattle.ds_graph_laws.specs.TotalSplits.{GroupedClusteringsExist, SplitsAreDecided};

/// The data edges of a split design can be listed, each once.
pub fn edges_are_listed()
    ensures { EdgesAreListed }
{}

/// The registers of a circuit have clusters, by each mode.
pub fn clusterings_exist()
    ensures { ClusteringsExist }
{}

/// So they have where disjoint groups take some of them.
pub fn grouped_clusterings_exist()
    ensures { GroupedClusteringsExist }
{}

/// A circuit has too many clusters, or a split design with too many orders, or one without.
pub fn splits_are_decided()
    ensures { SplitsAreDecided }
{}

/// A split design that does not ask for too many orders has a controller graph, at every slack.
pub fn controllers_exist()
    ensures { ControllersExist }
{}

/// A controller graph has two arcs for each node and two for each data edge.
pub fn controllers_are_counted()
    ensures { ControllersAreCounted }
{}
