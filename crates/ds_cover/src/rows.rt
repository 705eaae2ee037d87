//! Rows as words of the places that they take.
//!
//! A place is a row of values of the inputs. Of each input two words say at which places it is one
//! and at which it is zero, so that all places are looked at with a few operations a row.
ghost use Rattle.std.specs.Prelude.{◌≡◌, ◌≤◌, length};
ghost use Rattle.ds_cover.specs.Rows.{asked_word, kept_word, row_word, some_word};

use crate::mask::Mask;

// The places that some row takes.
pub(crate) fn rows_word(masks: &[Mask], ones: &[u64], zeros: &[u64]) -> u64
    requires ones { length ones.now ≤ 64 }
    requires zeros { length zeros.now ≤ 64 }
    ensures { result ≡ some_word ones.now zeros.now masks.now }
{
    let mut word = 0;
    for k in (0..masks.len()).rev() {
        word |= own_word(&masks[k], ones, zeros);
    }
    word
}

// The places that a row takes.
fn own_word(mask: &Mask, ones: &[u64], zeros: &[u64]) -> u64
    requires ones { length ones.now ≤ 64 }
    requires zeros { length zeros.now ≤ 64 }
    ensures { result ≡ row_word ones.now zeros.now mask.now }
{
    asked(mask.needs_one, ones) & asked(mask.needs_zero, zeros)
}

// The places where all words have a bit that the bits ask for.
fn asked(needs: u64, words: &[u64]) -> u64
    requires { length words.now ≤ 64 }
    ensures { result ≡ asked_word words.now needs }
{
    let mut word = u64::MAX;
    for i in (0..words.len()).rev() {
        word &= kept(needs >> i, words[i]);
    }
    word
}

// A word where the lowest bit asks for it, else all places.
fn kept(needs: u64, word: u64) -> u64
    ensures { result ≡ kept_word needs word }
{
    if needs % 2 == 0 { u64::MAX } else { word }
}
