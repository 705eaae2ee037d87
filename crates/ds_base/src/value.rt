//! Zero, one and unknown, and what a gate makes of them.
ghost use Rattle.std.specs.Prelude.{◌≡◌, ◌≤◌};
ghost use Rattle.ds_base.specs.Values.{both, either, inverse};
ghost use Rattle.ds_base.specs.Word.{code_of};

/// What a net carries: zero, one, or a value that is not known.
#[derive(Clone, Copy, Debug, PartialEq, Eq)]
pub enum Value {
    Zero,
    One,
    Unknown,
}

impl Value {
    /// Zero where one of them is zero, one where both are one.
    pub fn and(self, other: Value) -> Value
        ensures { result ≡ both self other }
    {
        match (self, other) {
            (Value::Zero, _) | (_, Value::Zero) => Value::Zero,
            (Value::One, Value::One) => Value::One,
            _ => Value::Unknown,
        }
    }

    /// One where one of them is one, zero where both are zero.
    pub fn or(self, other: Value) -> Value
        ensures { result ≡ either self other }
    {
        match (self, other) {
            (Value::One, _) | (_, Value::One) => Value::One,
            (Value::Zero, Value::Zero) => Value::Zero,
            _ => Value::Unknown,
        }
    }

    /// The other of zero and one.
    pub fn not(self) -> Value
        ensures { result ≡ inverse self }
    {
        match self {
            Value::Zero => Value::One,
            Value::One => Value::Zero,
            Value::Unknown => Value::Unknown,
        }
    }

    /// Its two bits in a word.
    pub fn code(self) -> u64
        ensures code { result ≡ code_of self }
        ensures two_bits { result ≤ 2 }
    {
        match self {
            Value::Zero => 0,
            Value::One => 1,
            Value::Unknown => 2,
        }
    }

    /// The value with these two bits.
    pub fn of_code(code: u64) -> Value
        ensures { (value : Value) → code ≡ code_of value → result ≡ value }
    {
        match code {
            0 => Value::Zero,
            1 => Value::One,
            _ => Value::Unknown,
        }
    }
}
