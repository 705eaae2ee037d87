//! Laws of the definitions, each the contract of a function that does nothing.
ghost use Rattle.ds_stage.specs.Laws.{NetlistsAreInRange, PlansHaveOwnWords, VectorsHaveColumns};

/// Each number in the netlist of a file names what is there.
pub fn netlists_are_in_range()
    ensures { NetlistsAreInRange }
{}

/// The vectors of a file are as wide as the columns of the netlist.
pub fn vectors_have_columns()
    ensures { VectorsHaveColumns }
{}

/// Each event of a plan is written as a word of its own.
pub fn plans_have_own_words()
    ensures { PlansHaveOwnWords }
{}
