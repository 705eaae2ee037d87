//! Laws of the definitions, each the contract of a function that does nothing.
ghost use Rattle.ds_rank.specs.Laws.{OneListOfRanks};

/// A graph has one list of ranks at most.
pub fn one_list_of_ranks()
    ensures { OneListOfRanks }
{}
