//! Netlists that are made: registers in a row, and a hundred that read one another.
use std::alloc::{AllocError, Global};

/// So many registers in a row, of which the first takes the input and the last is the output.
pub fn chain(alloc: Global, registers: usize) -> Result<String, AllocError> {
    let last = registers.saturating_sub(1);
    let mut text = format!(in alloc; ".model chain\n.inputs clk a\n.outputs q{last}\n")?;
    text.push_str(".latch a q0 re clk 0\n")?;
    for i in 1..registers {
        text.push_str(format!(in alloc; ".latch q{} q{i} re clk 0\n", i - 1)?.as_str())?;
    }
    Ok(text)
}

// The next of a row of words, each of which is made of the one before it.
fn next_word(word: &mut u64) -> usize {
    *word ^= *word << 13;
    *word ^= *word >> 7;
    *word ^= *word << 17;
    (*word >> 33) as usize
}

// The name of a net that is read: the input, or one of a hundred registers.
fn source(alloc: Global, word: &mut u64) -> Result<String, AllocError> {
    match next_word(word) % 101 {
        0 => String::from_str(alloc, "a"),
        n => format!(in alloc; "q{}", n - 1),
    }
}

/// A hundred registers, each of which takes a table of two nets.
pub fn tangle(alloc: Global, seed: u64) -> Result<String, AllocError> {
    let mut word = seed ^ 88_172_645_463_325_252;
    let mut text = String::from_str(alloc, ".model tangle\n.inputs a\n.outputs q0\n")?;
    for i in 0..100 {
        let first = source(alloc, &mut word)?;
        let second = source(alloc, &mut word)?;
        let row = match next_word(&mut word) % 3 {
            0 => "11 0",
            1 => "01 1",
            _ => "1- 1\n-1 1",
        };
        text.push_str(format!(in alloc; ".names {first} {second} d{i}\n{row}\n")?.as_str())?;
        text.push_str(format!(in alloc; ".latch d{i} q{i} {}\n", i % 2)?.as_str())?;
    }
    Ok(text)
}
