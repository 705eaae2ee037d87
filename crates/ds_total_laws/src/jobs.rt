//! The law that jobs are decided.
ghost use Rattle.ds_total_laws.specs.Decided.{JobsAreDecided};

/// A job of allowed numbers, each file of which is there and tells what it holds, has a text, or a
/// line that refuses it; `jobs_are_exclusive` of `ds_app` says that it has not both.
pub fn jobs_are_decided()
    ensures { JobsAreDecided }
{}
