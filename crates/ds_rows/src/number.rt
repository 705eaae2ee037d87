//! Numbers of one to ten decimal digits.
ghost use Rattle.std.specs.Prelude.{◌≡◌, true};
ghost use Rattle.std.specs.List.{list_all};
ghost use Rattle.std.specs.Str.Parse.{digits_value};
ghost use Rattle.ds_rows.specs.Number.{is_decimal, is_short_number};

/// Whether a word is one to ten digits.
pub fn is_short(word: &[u8]) -> bool
    ensures { result ≡ is_short_number word.now }
{
    !word.is_empty() && word.len() <= 10 && are_digits(word)
}

// Only digits stand in the word.
fn are_digits(word: &[u8]) -> bool
    ensures { result ≡ list_all is_decimal word.now }
{
    word.iter().all(|byte| *byte >= b'0' && *byte <= b'9')
}

/// The number that such a word writes.
pub fn short_value(word: &[u8]) -> u64
    requires { is_short_number word.now ≡ true }
    ensures { result ≡ digits_value 10 word.now }
{
    let mut value = 0;
    for byte in word {
        value = value * 10 + u64::from(*byte - b'0');
    }
    value
}
