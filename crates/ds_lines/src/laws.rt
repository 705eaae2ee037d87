//! Laws of the definitions, each the contract of a function that does nothing.
ghost use Rattle.ds_lines.specs.Laws.{InTwoParts, JoinedWithABlank, PrintedLinesAreRead};
ghost use Rattle.ds_lines.specs.Worked.{TextIsWorked};

/// A line that is joined is the line of one text, a blank between its parts.
pub fn joined_with_a_blank()
    ensures { JoinedWithABlank }
{}

/// A text that prints lines has these lines.
pub fn printed_is_read()
    ensures { PrintedLinesAreRead }
{}

/// Behind a physical line that joins nothing the lines go on as those of a text of its own.
pub fn in_two_parts()
    ensures { InTwoParts }
{}

/// The lines of a text with comments, joined lines and an empty line.
pub fn text_is_worked()
    ensures { TextIsWorked }
{}
