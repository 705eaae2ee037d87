//! Laws of schedules: the period paces them.
ghost use Rattle.ds_graph_laws.specs.Paced.{CyclesPaceTimes, PeriodsBoundTimes};

/// No event is later than its potential after as many periods as there are turns before.
pub fn periods_bound_times()
    ensures { PeriodsBoundTimes }
{}

/// No event comes round a cycle sooner than the delay of the cycle.
pub fn cycles_pace_times()
    ensures { CyclesPaceTimes }
{}
