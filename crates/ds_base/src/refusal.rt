//! Why something is not given, where that may also be want of memory.
use crate::OutOfMemory;
use std::alloc::{AllocError, AllocFailed};

/// Why something is not given: what is wrong with what was asked for, or want of memory.
#[derive(Drop, Debug)]
pub enum Refusal<F> {
    Fault(F),
    /// Memory was wanted and not found.
    Memory,
}

impl<F> From<OutOfMemory> for Refusal<F> {
    ghost use Rattle.std.specs.Prelude.{◌≡◌};
    ghost use Rattle.ds_base.specs.declared.refusal.Refusal.TheVariants.{Memory};

    ghost from_gives = { λ _ why. why ≡ Memory };

    fn from(_: OutOfMemory) -> Self {
        Refusal::Memory
    }
}

impl<F> From<AllocError> for Refusal<F> {
    ghost use Rattle.std.specs.Prelude.{◌≡◌};
    ghost use Rattle.ds_base.specs.declared.refusal.Refusal.TheVariants.{Memory};

    ghost from_gives = { λ _ why. why ≡ Memory };

    fn from(_: AllocError) -> Self {
        Refusal::Memory
    }
}

impl<F, T: Drop> From<AllocFailed<T>> for Refusal<F> {
    ghost use Rattle.std.specs.Prelude.{◌≡◌};
    ghost use Rattle.ds_base.specs.declared.refusal.Refusal.TheVariants.{Memory};

    ghost from_gives = { λ _ why. why ≡ Memory };

    fn from(_: AllocFailed<T>) -> Self {
        Refusal::Memory
    }
}
