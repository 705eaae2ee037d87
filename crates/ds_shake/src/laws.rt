//! Laws of the definitions, each the contract of a function that does nothing.
ghost use Rattle.ds_shake.specs.Laws.{ArcsFit, ExpansionsArePlans, ShakeFaultsAreRefused};
ghost use Rattle.ds_shake.specs.Laws.{ExpansionsFireNothingNew, OneExpansion};

/// An expansion is a plan's graph: each required order is given, and nothing waits for itself.
pub fn expansions_are_plans()
    ensures { ExpansionsArePlans }
{}

/// An expansion lets no node fire where the required orders do not.
pub fn expansions_fire_nothing_new()
    ensures { ExpansionsFireNothingNew }
{}

/// A split design has one expansion at most.
pub fn one_expansion()
    ensures { OneExpansion }
{}

/// Where there is a fault there is no expansion.
pub fn faults_are_refused()
    ensures { ShakeFaultsAreRefused }
{}

/// Where the signals are few, the arcs are no more than a graph may have.
pub fn arcs_fit()
    ensures { ArcsFit }
{}
