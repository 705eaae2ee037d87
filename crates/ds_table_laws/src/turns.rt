//! Laws of the turnstile: with whom the pass of a node is.
ghost use Rattle.ds_table_laws.specs.TurnedPasses.{OneTurnHasIt, PassesAreSomewhere};

/// One turn at most has a node out.
pub fn one_turn_has_it()
    ensures { OneTurnHasIt }
{}

/// The pass of each node is free, and with no turn, or some turn has it out.
pub fn passes_are_somewhere()
    ensures { PassesAreSomewhere }
{}
