//! Up to 64 values as bits.
ghost use Rattle.std.specs.Prelude.{◌≡◌, ◌<◌, ◌≤◌, All, drop, length, slice_index_or, take};
ghost use Rattle.ds_base.specs.declared.value.Value.TheVariants.{Zero};
ghost use Rattle.ds_cover.specs.Cover.{values_at};
ghost use Rattle.ds_cover.specs.Packed.{one_bit, unknown_bit, words_of_values, zero_bit};

use ds_base::{NetId, Value};

/// The values of up to 64 inputs, a bit for each in the word of its value.
#[derive(Clone, Copy)]
pub struct ValueWord {
    /// The inputs that are one.
    pub ones: u64,
    /// The inputs that are zero.
    pub zeros: u64,
    /// The inputs that are not known.
    pub unknown: u64,
}

// The values of the inputs from a place on, as many as a word has.
pub(crate) fn word_at(inputs: &[NetId], first: usize, nets: &[Value]) -> ValueWord
    requires place { first ≤ length inputs.now }
    requires within { All (λ net. net < length nets.now) inputs.now }
    ensures { result ≡ words_of_values (take 64 (drop first (values_at nets.now inputs.now))) }
{
    if inputs.len() - first > 64 {
        word_from(&inputs[first..first + 64], nets)
    } else {
        word_from(&inputs[first..], nets)
    }
}

// The values of these inputs.
#[tactic(auto, using(crate::proofs::Bits::word_steps))]
fn word_from(inputs: &[NetId], nets: &[Value]) -> ValueWord
    requires few { length inputs.now ≤ 64 }
    requires within { All (λ net. net < length nets.now) inputs.now }
    ensures { result ≡ words_of_values (values_at nets.now inputs.now) }
{
    let mut ones = 0;
    let mut zeros = 0;
    let mut unknown = 0;
    for i in (0..inputs.len()).rev() {
        let value = value_in(nets, inputs[i].index());
        ones = is_one(value) + 2 * ones;
        zeros = is_zero(value) + 2 * zeros;
        unknown = is_unknown(value) + 2 * unknown;
    }
    ValueWord {
        ones,
        zeros,
        unknown,
    }
}

// The value at a place.
pub(crate) fn value_in(nets: &[Value], place: usize) -> Value
    requires { place < length nets.now }
    ensures { result ≡ slice_index_or nets.now place Zero }
{
    nets[place]
}

// 1 where the value is one.
fn is_one(value: Value) -> u64
    ensures value { result ≡ one_bit value }
    ensures few { result ≤ 1 }
{
    match value {
        Value::One => 1,
        _ => 0,
    }
}

// 1 where the value is zero.
fn is_zero(value: Value) -> u64
    ensures value { result ≡ zero_bit value }
    ensures few { result ≤ 1 }
{
    match value {
        Value::Zero => 1,
        _ => 0,
    }
}

// 1 where the value is not known.
fn is_unknown(value: Value) -> u64
    ensures value { result ≡ unknown_bit value }
    ensures few { result ≤ 1 }
{
    match value {
        Value::Unknown => 1,
        _ => 0,
    }
}
