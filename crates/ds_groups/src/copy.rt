//! The copy that a word names, where it is `k/name`.
ghost use Rattle.std.specs.Prelude.{◌≡◌, ◌≢◌, ◌<◌, ◌^◌, ℕ, decimal, IfSome, IfNone};
ghost use Rattle.ds_groups.specs.Copy.{copied, IsOfNoCopy};

use ds_lines::place_of;
use ds_rows::{is_short, short_value};
use itoa::Buffer;

/// The number of a copy, and the name of a net there.
#[derive(Clone, Copy)]
pub(crate) struct Copied<'a> {
    pub copy: u32,
    pub name: &'a [u8],
}

/// The copy and the name that a word is made of: a number that is not 0, without leading zeros,
/// a `/`, and the name.
pub(crate) fn copied_in(word: &[u8]) -> Option<Copied<'_>>
    ensures some { IfSome result (λ r. word.now ≡ copied r.copy r.name.now) }
    ensures above { IfSome result (λ r. 0 < r.copy) }
    ensures few { IfSome result (λ r. r.copy < 2 ^ 32) }
    ensures none { IfNone result (IsOfNoCopy word.now) }
{
    let place = place_of(word, b'/');
    if place == word.len() {
        return None;
    }
    let copy = copy_of(&word[..place])?;
    let name = &word[place + 1..];
    Some(Copied { copy, name })
}

// The number of a copy, as it is written.
fn copy_of(digits: &[u8]) -> Option<u32>
    ensures some { IfSome result (λ copy. (0 < copy) × (digits.now ≡ decimal copy)) }
    ensures none { IfNone result ((copy : ℕ) → 0 < copy → copy < 2 ^ 32
        → digits.now ≢ decimal copy) }
{
    if !is_short(digits) {
        return None;
    }
    let value = short_value(digits);
    if value == 0 || value > 4_294_967_295 {
        return None;
    }
    let copy = value as u32;
    let mut buffer = Buffer::new();
    if buffer.format(copy).as_bytes() != digits {
        return None;
    }
    Some(copy)
}
