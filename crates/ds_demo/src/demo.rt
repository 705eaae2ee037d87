//! A design and vectors of a seed.
ghost use Rattle.std.specs.Prelude.{◌≡◌, ◌^◌, ◌≤◌, IfOk, length};
ghost use Rattle.ds_base.specs.Limit.{most_of};
ghost use Rattle.ds_base.specs.declared.number.Limit.TheVariants.{Vectors as VectorLimit};
ghost use Rattle.std.specs.Int.{bit_at};
ghost use Rattle.ds_demo.specs.Demo.{seed_words, design_of, demo_bit_value, vector_of};
ghost use Rattle.ds_demo.specs.Demo.{vectors_of_words};
ghost use Rattle.ds_demo.specs.Demo.{demo_design, demo_vectors};

use crate::parts::{data_net, gates, nets, register_net, registers_in};
use ds_base::{NetId, OutOfMemory, Row3, Seq, Value};
use ds_design::{Design, Vectors};
use rand_core::SeedableRng;
use rand_core::utils::NextWord;
use rand_xoshiro::SplitMix64;
use std::alloc::Global;

/// A design of so many registers, each with a table of three inputs, on two columns, and a vector
/// for each turn. The same seed gives the same.
///
/// The first words of `SplitMix64` from the seed are the registers', one each, the next are the
/// turns'. The nets are named `x0`, `x1`, `r0` and on, `d0` and on; the outputs are `d0` and the
/// last `r`. Lines are 0.
pub fn make(
    alloc: Global,
    seed: u64,
    registers: u32,
    turns: u32,
) -> Result<(Design, Vectors), OutOfMemory>
    requires some { 1 ≤ registers }
    requires few { registers ≤ 4096 }
    requires turns { turns ≤ most_of VectorLimit }
    ensures ok { IfOk result (λ r. (r.0 ≡ demo_design seed registers)
        × (r.1 ≡ demo_vectors seed registers turns)) }
{
    let words = draw(alloc, seed, registers as usize + turns as usize)?;
    let (first, rest) = words.as_slice().split_at(registers as usize);
    let design = design(alloc, registers, first)?;
    let vectors = vectors(alloc, rest)?;
    Ok((design, vectors))
}

// The first words of a seed.
fn draw(alloc: Global, seed: u64, count: usize) -> Result<Vec<u64>, OutOfMemory>
    requires { count ≤ 2 ^ 32 }
    ensures { IfOk result (λ w. w.items ≡ seed_words count seed) }
{
    let mut generator = SplitMix64::seed_from_u64(seed);
    let mut words = Vec::with_capacity(alloc, count)?;
    for _ in 0..count {
        words.push(generator.next_word())?;
    }
    Ok(words)
}

// The design of so many registers with these words.
fn design(alloc: Global, registers: u32, words: &[u64]) -> Result<Design, OutOfMemory>
    requires some { 1 ≤ registers }
    requires few { registers ≤ 4096 }
    requires words { length words.now ≡ registers }
    ensures { IfOk result (λ d. d ≡ design_of registers words.now) }
{
    let name = Vec::from_slice(alloc, b"demo")?;
    let inputs = [NetId::new(0), NetId::new(1)];
    let outputs = [data_net(registers, 0), register_net(registers - 1)];
    Ok(Design::of(
        Seq::of(name),
        nets(alloc, registers)?,
        Seq::of(Vec::from_slice(alloc, &inputs)?),
        Seq::of(Vec::from_slice(alloc, &outputs)?),
        Seq::new(alloc),
        gates(alloc, registers, words)?,
        registers_in(alloc, registers, words)?,
    ))
}

// The vectors of these words.
fn vectors(alloc: Global, words: &[u64]) -> Result<Vectors, OutOfMemory>
    requires { length words.now ≤ most_of VectorLimit }
    ensures { IfOk result (λ v. v ≡ vectors_of_words words.now) }
{
    let mut rows = Vec::with_capacity(alloc, words.len())?;
    for word in words {
        rows.push(vector(alloc, *word)?)?;
    }
    Ok(Vectors::of(2, Seq::of(rows)))
}

// The vector of a word: a bit a column, the lowest first.
fn vector(alloc: Global, word: u64) -> Result<Row3, OutOfMemory>
    ensures { IfOk result (λ v. v ≡ vector_of word) }
{
    let values = [value(word), value(word >> 1)];
    Ok(Row3::of(Vec::from_slice(alloc, &values)?))
}

// The value of the lowest bit.
fn value(word: u64) -> Value
    ensures { result ≡ demo_bit_value (bit_at word 0) }
{
    if word % 2 == 1 {
        Value::One
    } else {
        Value::Zero
    }
}
