//! Laws of schedules: their firings are legal lists.
ghost use Rattle.ds_graph_laws.specs.Listed.{EventsHaveOneOrder, ListedAreLegal};
ghost use Rattle.ds_graph_laws.specs.Listed.{ListedAreNumbered, TimedAreLegal, TurnsAreListed};

/// The events by rank and number, once for each turn, are all firings turn by turn.
pub fn turns_are_listed()
    ensures { TurnsAreListed }
{}

/// Events have exactly one order by rank and number.
pub fn events_have_one_order()
    ensures { EventsHaveOneOrder }
{}

/// The firings turn by turn, in each turn by rank and number, are a legal list.
pub fn listed_are_legal()
    ensures { ListedAreLegal }
{}

/// Each of them has its event's next turn.
pub fn listed_are_numbered()
    ensures { ListedAreNumbered }
{}

/// The firings sorted by time are legal too, those of one time in the same order.
pub fn timed_are_legal()
    ensures { TimedAreLegal }
{}
