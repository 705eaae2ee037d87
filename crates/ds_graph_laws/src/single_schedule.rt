//! Laws of schedules: there is one, and its times never fall.
ghost use Rattle.ds_graph_laws.specs.OneSchedule.{GraphsHaveOneSchedule, LiveGraphsHaveOneSchedule};
ghost use Rattle.ds_graph_laws.specs.OneSchedule.{SchedulesAreEarliest, TimesNeverFall};

/// A graph in which nothing waits for itself has exactly one schedule.
pub fn live_graphs_have_one_schedule()
    ensures { LiveGraphsHaveOneSchedule }
{}

/// So has a graph without a cycle of arcs without tokens.
pub fn graphs_have_one_schedule()
    ensures { GraphsHaveOneSchedule }
{}

/// No times at which each target waits along the arcs are earlier than those of a schedule.
pub fn schedules_are_earliest()
    ensures { SchedulesAreEarliest }
{}

/// The times of an event never fall from turn to turn.
pub fn times_never_fall()
    ensures { TimesNeverFall }
{}
