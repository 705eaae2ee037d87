//! Laws of the definitions, each the contract of a function that does nothing.
ghost use Rattle.ds_app.specs.Laws.{JobsAreExclusive};

/// Where all files of a job tell what they hold, no line refuses it beside a text that it means.
pub fn jobs_are_exclusive()
    ensures { JobsAreExclusive }
{}
