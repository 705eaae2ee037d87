//! What a replay has to do with legal logs.
ghost use Rattle.ds_replay.specs.Legal.{EventsHaveOwnTexts, FiresEachLine, FiresLegalLogs};
ghost use Rattle.ds_replay.specs.Legal.{RefusesFirstFaults};
ghost use Rattle.ds_replay.specs.Printed.{NodesHaveOwnWords, PrintedBehindIsFired};
ghost use Rattle.ds_replay.specs.Printed.{PrintedIsFired, TraceIsFront};
ghost use Rattle.ds_replay.specs.Worked.{AreLogsWorked};

/// Where no two events are written alike, a log fires events exactly where it is a legal log of
/// them.
pub fn fires_legal_logs()
    ensures { FiresLegalLogs }
{}

/// Each line that is read is a firing.
pub fn fires_each_line()
    ensures { FiresEachLine }
{}

/// A fault is that of its line, and the lines before it are a legal log.
pub fn refuses_first_faults()
    ensures { RefusesFirstFaults }
{}

/// Events with signs, and dummies whose names end in none, of which none is there twice, are
/// written each in its own way.
pub fn events_have_own_texts()
    ensures { EventsHaveOwnTexts }
{}

/// The events of the nodes are written as words, each in its own way.
pub fn nodes_have_own_words()
    ensures { NodesHaveOwnWords }
{}

/// The log of a legal list is fired to the list's end.
pub fn printed_is_fired()
    ensures { PrintedIsFired }
{}

/// So it is behind other lines and the line `firings`.
pub fn printed_behind_is_fired()
    ensures { PrintedBehindIsFired }
{}

/// A trace is lines behind which a log may stand.
pub fn trace_is_front()
    ensures { TraceIsFront }
{}

/// Short logs fire what they should.
pub fn worked_logs()
    ensures { AreLogsWorked }
{}
