//! Laws of the definitions, each the contract of a function that does nothing.
ghost use Rattle.ds_demo.specs.Laws.{DesignIsAccepted, DesignIsInRange, TwoColumns, VectorsFit};
ghost use Rattle.ds_demo.specs.Laws.{TableIsItsFunction, FoldInPieces, FoldOfText};
ghost use Rattle.ds_demo.specs.Worked.{SeedZeroIsWorked, SumsAreWorked};

/// The design of a seed is accepted.
pub fn design_is_accepted()
    ensures { DesignIsAccepted }
{}

/// The numbers in the design of a seed name what is there.
pub fn design_is_in_range()
    ensures { DesignIsInRange }
{}

/// The table of a word computes its function.
pub fn table_is_its_function()
    ensures { TableIsItsFunction }
{}

/// The columns of the design of a seed are its first two nets.
pub fn two_columns()
    ensures { TwoColumns }
{}

/// The vectors of a seed are as wide as the columns, one a turn.
pub fn vectors_fit()
    ensures { VectorsFit }
{}

/// A text may be added in pieces.
pub fn fold_in_pieces()
    ensures { FoldInPieces }
{}

/// The sum after a text is the sum of the text.
pub fn fold_of_text()
    ensures { FoldOfText }
{}

/// Two registers and three turns of the seed 0.
pub fn seed_zero_is_worked()
    ensures { SeedZeroIsWorked }
{}

/// Sums of two short texts.
pub fn sums_are_worked()
    ensures { SumsAreWorked }
{}
