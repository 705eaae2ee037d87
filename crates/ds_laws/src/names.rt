//! A law of names: those of registers can be printed in a line and read again.
ghost use Rattle.ds_laws.specs.Names.{NamesArePlain};

/// The name of each register of a netlist, as it is printed, has no blank, no end of a line and no
/// `#`.
pub fn names_are_plain()
    ensures { NamesArePlain }
{}
