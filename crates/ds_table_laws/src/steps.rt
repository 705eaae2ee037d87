//! Laws of steps: what the answer of one says of all events of its node.
ghost use Rattle.ds_table_laws.specs.Steps.{DoneIsWhole, NotYetIsPart};

/// Where a step says that all is done, each event of the node has fired as often as it may.
pub fn done_is_whole()
    ensures { DoneIsWhole }
{}

/// Where a step says not yet, some event of the node has not.
pub fn not_yet_is_part()
    ensures { NotYetIsPart }
{}
