//! What follows of the rule's definitions.
ghost use Rattle.ds_rule.specs.Laws.{LogsAreLegal};

/// A log that is legal here, first one first, is a legal list of the graph of the run.
pub fn logs_are_legal()
    ensures { LogsAreLegal }
{}
