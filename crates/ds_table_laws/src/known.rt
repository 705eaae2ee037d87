//! Laws of runs: known values give known values.
ghost use Rattle.ds_table_laws.specs.Known.{KnownRunsAreKnown, KnownTracesAreKnown};

/// Where no start value and no vector has an unknown value, no value of the run is unknown.
pub fn known_runs_are_known()
    ensures { KnownRunsAreKnown }
{}

/// Where no initial value and no vector has an unknown value, a trace has no `x`.
pub fn known_traces_are_known()
    ensures { KnownTracesAreKnown }
{}
