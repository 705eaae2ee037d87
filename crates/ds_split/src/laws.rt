//! Laws of the definitions, each the contract of a function that does nothing.
ghost use Rattle.ds_split.specs.Laws.{OneClustering, OneGroupedClustering, WithoutGroups};
ghost use Rattle.ds_split.specs.Worked.{BusesAreWorked};
ghost use Rattle.ds_split.specs.Settled.{SettlesNextValue};
ghost use Rattle.ds_split.specs.Taken.{TakesNextValue};

/// A netlist's registers have one clustering.
pub fn one_clustering()
    ensures { OneClustering }
{}

/// Nor is there another where groups take some of the registers.
pub fn one_grouped_clustering()
    ensures { OneGroupedClustering }
{}

/// Without groups the clusters are those of the mode.
pub fn without_groups()
    ensures { WithoutGroups }
{}

/// Names of nets, with what is left of them.
pub fn buses_are_worked()
    ensures { BusesAreWorked }
{}

/// What a node takes from its producers' values is its next value in the clocked run.
pub fn takes_next_value()
    ensures { TakesNextValue }
{}

/// What the cone of a node settles to over its producers' values is its next value.
pub fn settles_next_value()
    ensures { SettlesNextValue }
{}
