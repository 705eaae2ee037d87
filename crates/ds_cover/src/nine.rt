//! The values of a table of one or two inputs for all rows of two values.
ghost use Rattle.std.specs.Prelude.{◌≡◌, ◌<◌};
ghost use Rattle.ds_cover.specs.Small.{value_in_27, values_of_word};
ghost use Rattle.ds_cover.specs.Ternary.{code_value};

use ds_base::Value;

/// The values of a table of one or two inputs, one for each row of two values.
#[derive(Clone, Copy)]
pub struct Nine {
    /// That of the codes a and b of the inputs, the last one repeated, at a + 3 b.
    pub values: [Value; 9],
}

impl Nine {
    // Out of a word of 27.
    pub(crate) fn of(word: u64) -> Self
        ensures { result.values ≡ values_of_word 2 word }
    {
        Nine {
            values: [
                value_in(word, 0),
                value_in(word, 1),
                value_in(word, 2),
                value_in(word, 12),
                value_in(word, 13),
                value_in(word, 14),
                value_in(word, 24),
                value_in(word, 25),
                value_in(word, 26),
            ],
        }
    }
}

// The value that a word of 27 has at a place.
pub(crate) fn value_in(word: u64, place: u64) -> Value
    requires { place < 27 }
    ensures { result ≡ value_in_27 word place }
{
    value_of_code((word >> (2 * place)) % 4)
}

// The value of a code.
fn value_of_code(code: u64) -> Value
    ensures { result ≡ code_value code }
{
    if code == 0 {
        Value::Zero
    } else if code == 1 {
        Value::One
    } else {
        Value::Unknown
    }
}
