//! Why a text stands for no models.
use ds_base::{Limit, Name, Refusal};
use ds_lines::At;

/// What is wrong with a line, in the order in which the kinds are looked for.
#[derive(Drop)]
pub enum BlifKind {
    /// A command that is neither read nor skipped: its word.
    Unsupported(Name),
    /// A line that stands outside of a model, or a text without models.
    NoModel,
    /// A row behind no table and no row.
    RowWithoutTable,
    /// A wrong number of words, an unknown type of latch, a pair without `=` or without a formal,
    /// a formal twice.
    BadWords,
    /// A table with too many inputs.
    TooMany(Limit),
    /// A latch that is not edge-triggered: `ah`, `al` or `as`.
    LevelLatch,
    /// An initial value that is none of `0` to `3`.
    BadInit,
    /// A name that an earlier model has.
    RepeatedModel(Name),
    /// A row of another form or length, or with another character.
    BadRow,
    /// A row with another output than the first row of its table.
    MixedRows,
}

/// The first fault of a text.
pub type BlifFault = At<BlifKind>;

/// Why a text is not read: its first fault, or want of memory.
pub type BlifRefusal = Refusal<BlifFault>;
