//! A row of values: one value a net, register or column, as each turn reads and writes it.
ghost use Rattle.std.specs.Prelude.{◌≡◌, ◌↔◌, ◌*◌, ◌<◌, ◌≤◌, IsTrue, length, replicate};
ghost use Rattle.std.specs.Prelude.{slice_index_or, slice_set, IfOk};
ghost use Rattle.ds_base.specs.Word.{count_of_words, number_of_values, word_of};
ghost use Rattle.std.specs.Borrow.{sem};
ghost use Rattle.ds_base.specs.Lent.{LendsValues};
ghost use Rattle.ds_base.specs.Values.{AreKnown, Row};
ghost use Rattle.ds_base.specs.declared.value.Value.TheVariants.{Zero};

use crate::{OutOfMemory, Value};
use std::alloc::Global;
use std::marker::Model;

/// A row of values. Contracts see the list of the values.
#[derive(Drop)]
pub struct Row3 {
    values: Vec<Value>,
}

impl Model for Row3 {
    ghost use Rattle.ds_base.specs.Values.{Row};

    ghost Value = { Row };

    ghost view = { λ row. row.values.items };
}

impl Row3 {
    /// Of these values, one a place.
    pub fn of(values: Vec<Value>) -> Self
        ensures { result ≡ values.items }
    {
        Row3 { values }
    }

    /// Zeros.
    pub fn with_len(alloc: Global, n: usize) -> Result<Self, OutOfMemory>
        ensures { IfOk result (λ row. row ≡ replicate n Zero) }
    {
        Ok(Row3 {
            values: vec![in alloc; Value::Zero; n]?,
        })
    }

    /// How many values there are.
    pub fn len(&self) -> usize
        ensures { result ≡ length self.now }
    {
        self.values.len()
    }

    /// The value at a place.
    pub fn value(&self, i: usize) -> Value
        requires { i < length self.now }
        ensures { result ≡ slice_index_or self.now i Zero }
    {
        self.values[i]
    }

    /// Whether each value is known.
    pub fn all_known(&self) -> bool
        ensures { IsTrue result ↔ AreKnown self.now }
    {
        for value in self.values.as_slice() {
            if let Value::Unknown = value {
                return false;
            }
        }
        true
    }

    /// The values.
    pub fn values(&self) -> &[Value]
        ensures { result.now ≡ self.now }
    {
        self.values.as_slice()
    }

    /// The values, to be changed.
    pub fn values_mut(&mut self) -> &mut [Value]
        ensures* lends { sem 𝓛 (LendsValues self.entry result) }
        ensures value { result.now ≡ self.old }
    {
        self.values.as_mut_slice()
    }

    /// Another value at a place.
    pub fn set(&mut self, i: usize, value: Value)
        requires { i < length self.old }
        ensures { self.new ≡ slice_set self.old i value }
    {
        self.values[i] = value;
    }

    /// The values of another row of the same length.
    pub fn copy_from(&mut self, other: &Row3)
        requires { length self.old ≡ length other.now }
        ensures { self.new ≡ other.now }
    {
        self.values.copy_from_slice(&other.values);
    }

    /// Values 32 i and on, two bits each, the first of them the lowest; 0 past the end.
    pub fn word(&self, i: usize) -> u64
        requires { 32 * i < length self.now }
        ensures { result ≡ word_of self.now i }
    {
        let rest = &self.values[32 * i..];
        if rest.len() < 32 {
            word_from(rest)
        } else {
            word_from(&rest[..32])
        }
    }
}

// The number of these values, the first of them the lowest.
#[tactic(auto, using(crate::proofs::PackedWords::word_steps))]
fn word_from(values: &[Value]) -> u64
    requires { length values.now ≤ 32 }
    ensures { result ≡ number_of_values values.now }
{
    let mut word = 0;
    for i in (0..values.len()).rev() {
        word = values[i].code() + 4 * word;
    }
    word
}

/// How many words the values of a row of so many take, 32 a word.
pub fn words_of(count: usize) -> usize
    ensures { result ≡ count_of_words count }
{
    if count % 32 == 0 {
        count / 32
    } else {
        count / 32 + 1
    }
}
