//! Laws of schedules: their firings do what the clocked circuit does.
ghost use Rattle.ds_graph_laws.specs.Clocked.{ListedFollowClock, TimedFollowClock};

/// Each first part of the firings turn by turn, in each turn by rank and number, leaves what the
/// clocked run does.
pub fn listed_follow_clock()
    ensures { ListedFollowClock }
{}

/// So does each first part of the firings sorted by time, those of one time in the same order.
pub fn timed_follow_clock()
    ensures { TimedFollowClock }
{}
