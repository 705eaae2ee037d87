//! Bits of words as values.
ghost use Rattle.std.specs.Prelude.{◌≡◌, ◌≢◌, ◌+◌, ◌*◌, ◌<◌, ℕ};
ghost use Rattle.std.specs.Int.{bit_at};
ghost use Rattle.ds_cover.specs.Kept.{bit_value};
ghost use Rattle.ds_cover.specs.Packed.{one_bit};
ghost use Rattle.ds_design.specs.Trace.{value_text};

use ds_base::Value;
use ds_cover::value_of_bit;

// The value of a turn in a word.
pub(crate) fn bit_of(word: u64, turn: usize) -> Value
    requires { turn < 64 }
    ensures { result ≡ bit_value (bit_at word turn) }
{
    value_of_bit((word >> turn) & 1)
}

// The value of a turn in a byte as it is printed.
pub(crate) fn bit_character(byte: u8, turn: usize) -> u8
    requires { turn < 8 }
    ensures { result ≡ value_text (bit_value (bit_at byte turn)) }
{
    48 + ((byte >> turn) & 1)
}

// The eight turns of a word that begin at eight times so many.
pub(crate) fn byte_of(word: u64, block: usize) -> u8
    requires { block < 8 }
    ensures { (k : ℕ) → k < 8 → bit_at result k ≡ bit_at word (8 * block + k) }
{
    ((word >> (8 * block)) & 255) as u8
}

// The word with the bit of a turn set, where the value is one.
pub(crate) fn with_bit(word: u64, turn: usize, value: Value) -> u64
    requires { turn < 64 }
    ensures same { (k : ℕ) → k ≢ turn → bit_at result k ≡ bit_at word k }
    ensures set { bit_at word turn ≡ 0 → bit_at result turn ≡ one_bit value }
{
    if let Value::One = value {
        word | (1 << turn)
    } else {
        word
    }
}
