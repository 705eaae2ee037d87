//! Laws of walks: least sums of tokens exist, so it is decided whether a walk has few tokens.
ghost use Rattle.ds_graph_laws.specs.Walks.{LeastIsShown, LeastSumsExist, WalksAreDecided};

/// From each event of a graph there are least sums of tokens.
pub fn least_sums_exist()
    ensures { LeastSumsExist }
{}

/// Between any two events there is a walk with so few tokens, or there is none.
pub fn walks_are_decided()
    ensures { WalksAreDecided }
{}

/// The least sum of tokens between any two events can be shown.
pub fn least_is_shown()
    ensures { LeastIsShown }
{}
