//! Reading the lines of a text, one physical line after the other.
ghost use Rattle.std.specs.Prelude.{◌≡◌, ◌≤◌, length, MatchResult};
ghost use Rattle.ds_base.specs.Limit.{most_of};
ghost use Rattle.ds_base.specs.declared.number.Limit.TheVariants.{Bytes};
ghost use Rattle.ds_lines.specs.Line.{lines_of};
ghost use Rattle.ds_lines.specs.Fault.{IsLinesRefused};

use crate::draft::Draft;
use crate::list::Lines;
use ds_base::Limit;
use std::alloc::{AllocError, Global};
use thiserror::Error;

/// Why a text has no lines.
#[derive(Clone, Copy, Debug, PartialEq, Eq, Error)]
pub enum LinesFault {
    #[error("the text has more than 16777216 bytes")]
    TooLong,
    #[error("out of memory")]
    Memory,
}

impl From<AllocError> for LinesFault {
    ghost use Rattle.ds_lines.specs.declared.reader.LinesFault.TheVariants.{Memory};

    ghost from_gives = { λ _ e. e ≡ Memory };

    fn from(_: AllocError) -> Self {
        LinesFault::Memory
    }
}

/// The logical lines of a text. It is too long exactly where it has more bytes than a text may
/// have; the words of the lines are slices of it.
pub fn lines(alloc: Global, text: &[u8]) -> Result<Lines<'_>, LinesFault>
    ensures { MatchResult result (λ l. (length text.now ≤ most_of Bytes) × (l ≡ lines_of text.now))
        (λ e. IsLinesRefused text.now e) }
{
    if text.len() as u64 > Limit::Bytes.most() {
        return Err(LinesFault::TooLong);
    }
    let mut draft = Draft::new(alloc);
    let mut rest = draft.take(text)?;
    'reading: while let Some(line) = rest {
        rest = draft.take(line)?;
    }
    draft.end_line()?;
    Ok(draft.into_lines())
}
