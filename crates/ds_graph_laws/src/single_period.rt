//! Laws of periods: there is one, but for the cycle.
ghost use Rattle.ds_graph_laws.specs.OnePeriod.{CyclesAreSlowest, GraphsHaveOnePeriod};
ghost use Rattle.ds_graph_laws.specs.OnePeriod.{OnePeriod, PeriodsAreGreatest};

/// The ratio of a period is the greatest of all closed walks.
pub fn periods_are_greatest()
    ensures { PeriodsAreGreatest }
{}

/// The cycle of a period is a slowest one.
pub fn cycles_are_slowest()
    ensures { CyclesAreSlowest }
{}

/// Two periods of the same arcs differ in the cycle alone.
pub fn one_period()
    ensures { OnePeriod }
{}

/// So do two periods of a graph with the same delays.
pub fn graphs_have_one_period()
    ensures { GraphsHaveOnePeriod }
{}
