//! Laws of the definitions, each the contract of a function that does nothing.
ghost use Rattle.ds_opening.specs.Foreseen.{ForeseesRows, ForeseesRun};

/// The states and nets that are computed by an order of the tables are the clocked run.
pub fn foresees_run()
    ensures { ForeseesRun }
{}

/// Each row of the list of all values stands in its place.
pub fn foresees_rows()
    ensures { ForeseesRows }
{}
