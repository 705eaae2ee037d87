//! Laws of the definitions, each the contract of a function that does nothing.
ghost use Rattle.ds_design.specs.Laws.{KnownValuesStand};
ghost use Rattle.ds_clocked.specs.Laws.{KnownCharactersStand};

/// Where known values take the place of unknown ones, each known value of a run stands.
pub fn known_values_stand()
    ensures { KnownValuesStand }
{}

/// Where known values take the place of `x`, in initial values or vectors, each other character of
/// the trace stands.
pub fn known_characters_stand()
    ensures { KnownCharactersStand }
{}
