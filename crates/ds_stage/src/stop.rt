//! Why a job ends before its text is written.
ghost use Rattle.std.specs.Prelude.{◌≡◌};

use ds_base::{OutOfMemory, Seq};
use std::alloc::AllocError;

/// What ends a job. A line is the one that is to stand on the error output.
#[derive(Drop)]
pub enum Stop {
    /// A file has a fault, with its line.
    Refused(Seq<u8>),
    /// A file was not read, with the line that says so.
    Unread(Seq<u8>),
    /// A write of the job's text failed.
    Unwritten,
    /// Memory was wanted and not found.
    Memory,
}

impl From<AllocError> for Stop {
    ghost use Rattle.ds_stage.specs.declared.stop.Stop.TheVariants.{Memory};

    ghost from_gives = { λ _ e. e ≡ Memory };

    fn from(_: AllocError) -> Self {
        Stop::Memory
    }
}

impl From<OutOfMemory> for Stop {
    ghost use Rattle.ds_stage.specs.declared.stop.Stop.TheVariants.{Memory};

    ghost from_gives = { λ _ e. e ≡ Memory };

    fn from(_: OutOfMemory) -> Self {
        Stop::Memory
    }
}
