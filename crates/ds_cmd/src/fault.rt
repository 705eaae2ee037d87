use ds_base::OutOfMemory;
use thiserror::Error;

/// Why words are no command line.
#[derive(Clone, Copy, Debug, PartialEq, Eq, Error)]
pub enum UsageFault {
    /// The command does not take the words.
    #[error("the words are no command line")]
    Line,
    /// A number is out of form or range.
    #[error("a number is out of form or range")]
    Number,
    /// There is no such way to put registers into clusters, or open latches are to be shown of a
    /// run with slack.
    #[error("there is no such mode")]
    Mode,
    /// Memory was wanted and not found.
    #[error("out of memory")]
    Memory,
}

impl From<OutOfMemory> for UsageFault {
    ghost use Rattle.std.specs.Prelude.{◌≡◌};
    ghost use Rattle.ds_cmd.specs.declared.fault.UsageFault.TheVariants.{Memory};

    ghost from_gives = { λ _ fault. fault ≡ Memory };

    fn from(_: OutOfMemory) -> Self {
        UsageFault::Memory
    }
}
