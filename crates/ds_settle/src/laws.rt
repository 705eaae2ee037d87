//! What follows of a cone.
ghost use Rattle.ds_settle.specs.Laws.{ConeSettles, SourcesAreKnown};

/// What is settled in a cone over the sources of a valuation agrees with the valuation.
pub fn cone_settles()
    ensures { ConeSettles }
{}

/// The sources of the cone of nets that are used are columns or nets of registers.
pub fn sources_are_known()
    ensures { SourcesAreKnown }
{}
