//! Laws of the texts of netlists.
ghost use Rattle.ds_text_laws.specs.BlifLaws.{FaultIsInOrder, ModelsAreWellFormed};
ghost use Rattle.ds_text_laws.specs.BlifLaws.{PrintedIsRead, PrintedTextIsRead};
ghost use Rattle.ds_text_laws.specs.BlifParts.{LinesStandInParts};
ghost use Rattle.ds_text_laws.specs.BlifWorked.{FaultsAreWorked, ModelsAreWorked};

/// The models that lines stand for are well formed.
pub fn models_are_well_formed()
    ensures { ModelsAreWellFormed }
{}

/// The fault of a line is the first that holds, in the one order of the format.
pub fn fault_is_in_order()
    ensures { FaultIsInOrder }
{}

/// The models of a text are those of its lines in parts.
pub fn lines_stand_in_parts()
    ensures { LinesStandInParts }
{}

/// The lines that print some models stand for these models, each part at its line.
pub fn printed_is_read()
    ensures { PrintedIsRead }
{}

/// The text that prints some models stands for these models, each part at its line.
pub fn printed_text_is_read()
    ensures { PrintedTextIsRead }
{}

/// Texts with each kind of fault, worked by hand.
pub fn faults_are_worked()
    ensures { FaultsAreWorked }
{}

/// A text whose models are worked by hand.
pub fn models_are_worked()
    ensures { ModelsAreWorked }
{}
