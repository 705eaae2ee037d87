//! The value of a table that a bank keeps.
ghost use Rattle.std.specs.Prelude.{◌≡◌, ◌<◌, ◌≤◌, true, All, IfSome, drop, length, take};
ghost use Rattle.ds_cover.specs.Cover.{values_at};
ghost use Rattle.ds_cover.specs.Kept.{AreThree, IsTableKept, bit_value, driven_in, quick_bit};
ghost use Rattle.ds_base.specs.Values.{AreKnown};
ghost use Rattle.ds_cover.specs.Packed.{mask_value, masks_value, packed_value, words_of_values};
ghost use Rattle.ds_base.specs.declared.value.Value.TheVariants.{One};

use crate::entry::{Quick, TableSpan};
use crate::mask::Mask;
use crate::value_word::{ValueWord, value_in, word_at};
use ds_base::{NetId, Value};

// The value of a table: that of its word where it has one and all its inputs are known, else that
// of its rows.
pub(crate) fn entry_value(
    quick: &Quick,
    span: &TableSpan,
    inputs: &[NetId],
    masks: &[Mask],
    nets: &[Value],
) -> Value
    requires kept { IsTableKept inputs.now masks.now span.now quick.now }
    requires within { All (λ net. net < length nets.now)
        (driven_in inputs.now masks.now span.now).cover.inputs }
    ensures { result ≡ packed_value (driven_in inputs.now masks.now span.now).cover nets.now }
{
    if quick.few {
        if let Some(value) = quick_value(quick, nets) {
            return value;
        }
    }
    let inputs = &inputs[span.first_input..span.first_input + span.inputs];
    let masks = &masks[span.first_mask..span.first_mask + span.masks];
    rows_value(inputs, masks, span.on, nets)
}

// The value by the word, where no input is unknown.
fn quick_value(quick: &Quick, nets: &[Value]) -> Option<Value>
    requires within { All (λ net. net < length nets.now) quick.now.nets }
    requires three { quick.now.at_most_three ≡ true → AreThree quick.now.nets }
    ensures known { IfSome result (λ _. AreKnown (values_at nets.now quick.now.nets)) }
    ensures value { IfSome result (λ value. value ≡ quick_bit quick.now nets.now) }
{
    if quick.at_most_three {
        three_value(quick, nets)
    } else {
        six_value(quick, nets)
    }
}

// The same for one to three inputs.
fn three_value(quick: &Quick, nets: &[Value]) -> Option<Value>
    requires within { All (λ net. net < length nets.now) quick.now.nets }
    requires three { AreThree quick.now.nets }
    ensures known { IfSome result (λ _. AreKnown (values_at nets.now quick.now.nets)) }
    ensures value { IfSome result (λ value. value ≡ quick_bit quick.now nets.now) }
{
    let a = value_in(nets, quick.nets[0].index()).code();
    let b = value_in(nets, quick.nets[1].index()).code();
    let c = value_in(nets, quick.nets[2].index()).code();
    if a | b | c > 1 {
        return None;
    }
    let place = a + 2 * b + 60 * c;
    Some(value_of_bit((quick.truth >> place) & 1))
}

// The same for one to six inputs.
fn six_value(quick: &Quick, nets: &[Value]) -> Option<Value>
    requires { All (λ net. net < length nets.now) quick.now.nets }
    ensures known { IfSome result (λ _. AreKnown (values_at nets.now quick.now.nets)) }
    ensures value { IfSome result (λ value. value ≡ quick_bit quick.now nets.now) }
{
    let a = value_in(nets, quick.nets[0].index()).code();
    let b = value_in(nets, quick.nets[1].index()).code();
    let c = value_in(nets, quick.nets[2].index()).code();
    let d = value_in(nets, quick.nets[3].index()).code();
    let e = value_in(nets, quick.nets[4].index()).code();
    let f = value_in(nets, quick.nets[5].index()).code();
    if a | b | c | d | e | f > 1 {
        return None;
    }
    let place = a + 2 * (b + 2 * (c + 2 * (d + 2 * (e + 2 * f))));
    Some(value_of_bit((quick.truth >> place) & 1))
}

/// Zero for 0, else one.
pub fn value_of_bit(bit: u64) -> Value
    ensures { result ≡ bit_value bit }
{
    if bit == 0 { Value::Zero } else { Value::One }
}

// The value by the masks of the rows.
fn rows_value(inputs: &[NetId], masks: &[Mask], on: bool, nets: &[Value]) -> Value
    requires fit { All (λ mask. mask.first ≤ length inputs.now) masks.now }
    requires within { All (λ net. net < length nets.now) inputs.now }
    ensures { result ≡ packed_value
        (record { inputs = inputs.now; masks = masks.now; on = on }) nets.now }
{
    let some = some_row(inputs, masks, nets);
    if on { some } else { some.not() }
}

// Whether some row matches.
fn some_row(inputs: &[NetId], masks: &[Mask], nets: &[Value]) -> Value
    requires fit { All (λ mask. mask.first ≤ length inputs.now) masks.now }
    requires within { All (λ net. net < length nets.now) inputs.now }
    ensures { result ≡ masks_value (values_at nets.now inputs.now) One masks.now }
{
    let front = word_at(inputs, 0, nets);
    let mut some = Value::Zero;
    let mut so_far = Value::One;
    for mask in masks {
        so_far = so_far.and(part_value(inputs, mask, &front, nets));
        if mask.last {
            some = some.or(so_far);
            if let Value::One = some {
                break;
            }
            so_far = Value::One;
        }
    }
    some
}

// Whether the inputs are as a mask asks. The front is the word of the first inputs.
fn part_value(inputs: &[NetId], mask: &Mask, front: &ValueWord, nets: &[Value]) -> Value
    requires fit { mask.now.first ≤ length inputs.now }
    requires within { All (λ net. net < length nets.now) inputs.now }
    requires front { front.now ≡ words_of_values
        (take 64 (drop 0 (values_at nets.now inputs.now))) }
    ensures { result ≡ mask_value mask.now
        (words_of_values (take 64 (drop mask.now.first (values_at nets.now inputs.now)))) }
{
    if mask.first == 0 {
        mask.value(front)
    } else {
        mask.value(&word_at(inputs, mask.first, nets))
    }
}
