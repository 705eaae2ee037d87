//! Laws of the definitions, each the contract of a function that does nothing.
ghost use Rattle.ds_netlist.specs.Laws.{FaultsAreRefused, FaultsAreInRange, OneFault, OneLevel};
ghost use Rattle.ds_netlist.specs.Laws.{OneDepth};

/// A circuit that has a fault is not accepted.
pub fn faults_are_refused()
    ensures { FaultsAreRefused }
{}

/// A circuit has one fault.
pub fn one_fault()
    ensures { OneFault }
{}

/// The nets and registers of a fault are those of the design.
pub fn faults_are_in_range()
    ensures { FaultsAreInRange }
{}

/// The nets of an accepted circuit have one level each.
pub fn one_level()
    ensures { OneLevel }
{}

/// An accepted circuit has one greatest level.
pub fn one_depth()
    ensures { OneDepth }
{}
