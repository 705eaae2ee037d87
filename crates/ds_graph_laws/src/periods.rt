//! Laws of periods: they are there.
ghost use Rattle.ds_graph_laws.specs.Periods.{DelaysAreOneEach, GraphsHavePeriods};
ghost use Rattle.ds_graph_laws.specs.Periods.{PeriodsExist, PlansAreTimed};

/// Arcs between events whose closed walks have tokens have a period, if some closed walk has an
/// arc.
pub fn periods_exist()
    ensures { PeriodsExist }
{}

/// A graph with tokens on each cycle and with some cycle has a period, whatever the delays of its
/// arcs are.
pub fn graphs_have_periods()
    ensures { GraphsHavePeriods }
{}

/// Lines that give delays give one for each arc.
pub fn delays_are_one_each()
    ensures { DelaysAreOneEach }
{}

/// The graph of a plan has a period with the delays that lines give.
pub fn plans_are_timed()
    ensures { PlansAreTimed }
{}
