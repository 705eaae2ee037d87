//! Laws of the words: what the counts of firings that they show allow, and how they come about.
ghost use Rattle.ds_table_laws.specs.TableCounts.{FlightsAreEnabled, ShownAreReached};

/// What a pass has in flight is enabled at the counts that the words show.
pub fn flights_are_enabled()
    ensures { FlightsAreEnabled }
{}

/// The counts that the words show are those of a legal list.
pub fn shown_are_reached()
    ensures { ShownAreReached }
{}
