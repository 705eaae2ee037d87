//! Laws of flat designs.
ghost use Rattle.ds_text_laws.specs.FlatCircles.{RecursiveFaultsAreCircles};
ghost use Rattle.ds_text_laws.specs.FlatCopies.{FlatDesignsAreOfCopies};
ghost use Rattle.ds_text_laws.specs.FlatLaws.{FaultsAreOnLines, FaultsHaveLines};
ghost use Rattle.ds_text_laws.specs.FlatLaws.{FlatDesignsAreInRange};
ghost use Rattle.ds_text_laws.specs.FlatWorked.{FlatDesignsAreWorked};

/// Each number in the flat design of well formed models names what is there.
pub fn flat_designs_are_in_range()
    ensures { FlatDesignsAreInRange }
{}

/// The nets, tables and registers of the flat design are those of the copies, each once, in order.
pub fn flat_designs_are_of_copies()
    ensures { FlatDesignsAreOfCopies }
{}

/// The models that a fault says to be recursive are a circle, each of which uses the next.
pub fn recursive_faults_are_circles()
    ensures { RecursiveFaultsAreCircles }
{}

/// The line of a fault is that of a command, so the bound on copies in one another is never used
/// up.
pub fn faults_are_on_lines()
    ensures { FaultsAreOnLines }
{}

/// Of the models of any text that is read no fault has line 0.
pub fn faults_have_lines()
    ensures { FaultsHaveLines }
{}

/// Short lists of models, worked by hand, give these flat designs and faults.
pub fn flat_designs_are_worked()
    ensures { FlatDesignsAreWorked }
{}
