//! Why the next vectors of a file are not given.
use ds_base::OutOfMemory;
use ds_lines::At;
use std::alloc::{AllocError, AllocFailed};

/// What is wrong with a line of a file that is read in windows.
#[derive(Clone, Copy, Debug, PartialEq, Eq)]
pub enum StreamKind {
    /// As many vectors as there may be stand before it: this many, which the reader was made for.
    TooMany(u64),
    /// It is not one word of the wanted length; for width 0, not the word `-`.
    BadWidth,
    /// A character is none of `0`, `1` and `x`.
    BadBit,
}

/// The first fault of a file that is read in windows.
pub type StreamFault = At<StreamKind>;

/// Why the next vectors of a file are not given.
#[derive(Drop, Debug)]
pub enum NextFault {
    /// A line has a fault.
    Vector(StreamFault),
    /// The file has more bytes than it may have, and the lines that end before are not enough.
    TooLong,
    /// A read failed.
    Read,
    /// Memory was wanted and not found.
    Memory,
}

impl From<OutOfMemory> for NextFault {
    ghost use Rattle.std.specs.Prelude.{◌≡◌};
    ghost use Rattle.ds_stream.specs.declared.fault.NextFault.TheVariants.{Memory};

    ghost from_gives = { λ _ why. why ≡ Memory };

    fn from(_: OutOfMemory) -> Self {
        NextFault::Memory
    }
}

impl From<AllocError> for NextFault {
    ghost use Rattle.std.specs.Prelude.{◌≡◌};
    ghost use Rattle.ds_stream.specs.declared.fault.NextFault.TheVariants.{Memory};

    ghost from_gives = { λ _ why. why ≡ Memory };

    fn from(_: AllocError) -> Self {
        NextFault::Memory
    }
}

impl<T: Drop> From<AllocFailed<T>> for NextFault {
    ghost use Rattle.std.specs.Prelude.{◌≡◌};
    ghost use Rattle.ds_stream.specs.declared.fault.NextFault.TheVariants.{Memory};

    ghost from_gives = { λ _ why. why ≡ Memory };

    fn from(_: AllocFailed<T>) -> Self {
        NextFault::Memory
    }
}
