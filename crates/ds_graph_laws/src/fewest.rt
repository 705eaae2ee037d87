//! Laws of periods: arcs with the same ends.
ghost use Rattle.ds_graph_laws.specs.Fewest.{CyclesGoByFewestTokens, DelaysAreAlike};

/// Lines give arcs with the same ends the same delay.
pub fn delays_are_alike()
    ensures { DelaysAreAlike }
{}

/// A slowest cycle has its ratio by the arcs of fewest tokens between its events.
pub fn cycles_go_by_fewest_tokens()
    ensures { CyclesGoByFewestTokens }
{}
