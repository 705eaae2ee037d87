//! Why models have no flat design.
ghost use Rattle.std.specs.Prelude.{◌≡◌};

use ds_base::{Limit, Name, OutOfMemory, Refusal, Seq};
use ds_lines::At;
use std::alloc::{AllocError, AllocFailed};

/// What is wrong with a command.
///
/// In `Recursive` each model uses the next one, and the last one the first.
#[derive(Drop)]
pub enum FlatKind {
    UnknownModel(Name),
    Recursive(Seq<Name>),
    UnknownFormal(Name),
    TooMany(Limit),
}

/// The first fault: that of the command on this line.
pub type FlatFault = At<FlatKind>;

/// A fault of the models, or want of memory.
pub type FlatRefusal = Refusal<FlatFault>;

/// Why a name has no number, or want of memory.
#[derive(Clone, Copy, Debug, PartialEq, Eq)]
pub enum NoNumber {
    TooManyNets,
    Memory,
}

impl<T: Drop> From<AllocFailed<T>> for NoNumber {
    ghost use Rattle.ds_flat.specs.declared.fault.NoNumber.TheVariants.{Memory};

    ghost from_gives = { λ _ e. e ≡ Memory };

    fn from(_: AllocFailed<T>) -> Self {
        NoNumber::Memory
    }
}

impl From<AllocError> for NoNumber {
    ghost use Rattle.ds_flat.specs.declared.fault.NoNumber.TheVariants.{Memory};

    ghost from_gives = { λ _ e. e ≡ Memory };

    fn from(_: AllocError) -> Self {
        NoNumber::Memory
    }
}

impl From<OutOfMemory> for NoNumber {
    ghost use Rattle.ds_flat.specs.declared.fault.NoNumber.TheVariants.{Memory};

    ghost from_gives = { λ _ e. e ≡ Memory };

    fn from(_: OutOfMemory) -> Self {
        NoNumber::Memory
    }
}
