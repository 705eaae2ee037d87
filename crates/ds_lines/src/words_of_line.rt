//! Words of a line, lent and copied.
ghost use Rattle.std.specs.Prelude.{◌≡◌, ◌<◌, length, IfOk};
ghost use Rattle.ds_lines.specs.Words.{texts, word_at};

use ds_base::{Name, Seq};
use std::alloc::{AllocError, Global};

/// The word at a place.
pub fn word<'a>(words: &[&'a [u8]], k: usize) -> &'a [u8]
    requires { k < length words.now }
    ensures { result.now ≡ word_at (texts words.now) k }
{
    words[k]
}

/// A copy of a word. `AllocError` is want of memory.
pub fn name(alloc: Global, word: &[u8]) -> Result<Name, AllocError>
    ensures { IfOk result (λ n. n ≡ word.now) }
{
    let bytes = word.to_vec(alloc)?;
    Ok(Seq::of(bytes))
}
