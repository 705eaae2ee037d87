//! Laws of expansions, and of the graph that is wanted.
ghost use Rattle.ds_total_laws.specs.DecidedExpansions.{ControllersAreDecided};
ghost use Rattle.ds_total_laws.specs.DecidedExpansions.{ExpansionsAreDecided};

/// Where the data edges of a split design are listed, each once, its expansion is there, or a limit
/// refuses it.
pub fn expansions_are_decided()
    ensures { ExpansionsAreDecided }
{}

/// Where besides the required orders are not too many, the graph that is wanted, with `--shake` or
/// without, has a text, or a line refuses it.
pub fn controllers_are_decided()
    ensures { ControllersAreDecided }
{}
