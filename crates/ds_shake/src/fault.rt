//! Why a graph is not expanded.
ghost use Rattle.std.specs.Prelude.{◌≡◌};

use ds_base::{Limit, OutOfMemory};
use std::alloc::{AllocError, AllocFailed};

/// There is too much of something, or memory was wanted and not found.
#[derive(Clone, Copy, Debug, PartialEq, Eq)]
pub enum ShakeFault {
    TooMany(Limit),
    Memory,
}

impl From<OutOfMemory> for ShakeFault {
    ghost use Rattle.ds_shake.specs.declared.fault.ShakeFault.TheVariants.{Memory};

    ghost from_gives = { λ _ fault. fault ≡ Memory };

    fn from(_: OutOfMemory) -> Self {
        ShakeFault::Memory
    }
}

impl From<AllocError> for ShakeFault {
    ghost use Rattle.ds_shake.specs.declared.fault.ShakeFault.TheVariants.{Memory};

    ghost from_gives = { λ _ fault. fault ≡ Memory };

    fn from(_: AllocError) -> Self {
        ShakeFault::Memory
    }
}

impl<T: Drop> From<AllocFailed<T>> for ShakeFault {
    ghost use Rattle.ds_shake.specs.declared.fault.ShakeFault.TheVariants.{Memory};

    ghost from_gives = { λ _ fault. fault ≡ Memory };

    fn from(_: AllocFailed<T>) -> Self {
        ShakeFault::Memory
    }
}
