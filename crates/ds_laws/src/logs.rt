//! Laws of logs: what is written is read, and fired to its end.
ghost use Rattle.ds_laws.specs.Logs.{LoggedIsFired, PrintedIsReplayed, StoppedIsReplayed};
ghost use Rattle.ds_laws.specs.Logs.{StatesAreClockedSoFar, WholeStatesAreClocked};
ghost use Rattle.ds_laws.specs.TimedLogs.{TimesAreLogs};

/// What a run with its log writes is read as a log and fired to its end.
pub fn logged_is_fired()
    ensures { LoggedIsFired }
{}

/// Behind a whole log the text of the state has for each register its clocked values.
pub fn whole_states_are_clocked()
    ensures { WholeStatesAreClocked }
{}

/// Behind any legal list the text of the state has for each register the first of its clocked
/// values.
pub fn states_are_clocked_so_far()
    ensures { StatesAreClockedSoFar }
{}

/// What `run --log` prints is read and fired to its end by `replay` of the same files.
pub fn printed_is_replayed()
    ensures { PrintedIsReplayed }
{}

/// What `run --stop --log` prints is read and fired to its end by `replay` of the same files, which
/// prints the lines before the log again.
pub fn stopped_is_replayed()
    ensures { StoppedIsReplayed }
{}

/// What `times` prints are the lines of a legal log that has each event once a turn, each with a
/// time behind it.
pub fn times_are_logs()
    ensures { TimesAreLogs }
{}
