//! Why a netlist is not split.
ghost use Rattle.std.specs.Prelude.{◌≡◌};

use ds_base::{Limit, OutOfMemory};
use std::alloc::{AllocError, AllocFailed};

/// There is too much of something, or memory was wanted and not found.
#[derive(Clone, Copy, Debug, PartialEq, Eq)]
pub enum SplitFault {
    TooMany(Limit),
    Memory,
}

impl From<OutOfMemory> for SplitFault {
    ghost use Rattle.ds_split.specs.declared.fault.SplitFault.TheVariants.{Memory};

    ghost from_gives = { λ _ fault. fault ≡ Memory };

    fn from(_: OutOfMemory) -> Self {
        SplitFault::Memory
    }
}

impl From<AllocError> for SplitFault {
    ghost use Rattle.ds_split.specs.declared.fault.SplitFault.TheVariants.{Memory};

    ghost from_gives = { λ _ fault. fault ≡ Memory };

    fn from(_: AllocError) -> Self {
        SplitFault::Memory
    }
}

impl<T: Drop> From<AllocFailed<T>> for SplitFault {
    ghost use Rattle.ds_split.specs.declared.fault.SplitFault.TheVariants.{Memory};

    ghost from_gives = { λ _ fault. fault ≡ Memory };

    fn from(_: AllocFailed<T>) -> Self {
        SplitFault::Memory
    }
}
