//! The law of plans: an acceptable graph has one.
ghost use Rattle.ds_graph_laws.specs.Plans.{AcceptableGraphsHavePlans};

/// A graph that is acceptable for a split design has a plan.
pub fn acceptable_graphs_have_plans()
    ensures { AcceptableGraphsHavePlans }
{}
