//! The parts of a design: nets, tables, registers.
ghost use Rattle.std.specs.Prelude.{◌≡◌, ◌<◌, ◌≤◌, ◌++◌, IfOk, OnOk, length};
ghost use Rattle.ds_demo.specs.Demo.{demo_nets, nets_named, source_of, cover_of};
ghost use Rattle.ds_demo.specs.Demo.{gates_of, registers_of, data_net_of, register_net};

use crate::rows::rows;
use ds_base::{NetId, OutOfMemory, Seq};
use ds_cover::Table;
use ds_design::{Edge, Gate, Net, Register};
use itoa::Buffer;
use std::alloc::Global;

// The columns, the nets of the registers, and those that they take.
pub(crate) fn nets(alloc: Global, registers: u32) -> Result<Seq<Net>, OutOfMemory>
    requires { registers ≤ 4096 }
    ensures { IfOk result (λ n. n ≡ demo_nets registers) }
{
    let mut all = Vec::with_capacity(alloc, 2 + 2 * registers as usize)?;
    add_nets(alloc, &mut all, b"x", 2)?;
    add_nets(alloc, &mut all, b"r", registers)?;
    add_nets(alloc, &mut all, b"d", registers)?;
    Ok(Seq::of(all))
}

// Nets of a letter and a number from 0.
fn add_nets(alloc: Global, all: &mut Vec<Net>, letter: &[u8], count: u32) -> Result<(), OutOfMemory>
    ensures { OnOk result (all.new.items ≡ all.old.items ++ nets_named letter.now count) }
{
    let mut buffer = Buffer::new();
    for i in 0..count {
        let mut name = Vec::from_slice(alloc, letter)?;
        name.extend_from_slice(buffer.format(i).as_bytes())?;
        all.push(Net {
            copy: 0,
            name: Seq::of(name),
        })?;
    }
    Ok(())
}

// The net that register j drives.
pub(crate) fn register_net(j: u32) -> NetId
    requires { j < 4096 }
    ensures { result ≡ register_net j }
{
    NetId::new(2 + j)
}

// The net that register j takes.
pub(crate) fn data_net(registers: u32, j: u32) -> NetId
    requires all { registers ≤ 4096 }
    requires one { j < 4096 }
    ensures { result ≡ data_net_of registers j }
{
    NetId::new(2 + registers + j)
}

// The tables, by the words of their registers.
pub(crate) fn gates(alloc: Global, registers: u32, words: &[u64]) -> Result<Seq<Gate>, OutOfMemory>
    requires few { registers ≤ 4096 }
    requires words { length words.now ≤ 4096 }
    ensures { IfOk result (λ g. g ≡ gates_of registers (length words.now) words.now) }
{
    let mut all = Vec::with_capacity(alloc, words.len())?;
    for (j, word) in words.iter().enumerate() {
        all.push(Gate {
            table: table(alloc, registers, *word)?,
            output: data_net(registers, j as u32),
            line: 0,
        })?;
    }
    Ok(Seq::of(all))
}

// The table of a word.
fn table(alloc: Global, registers: u32, word: u64) -> Result<Table, OutOfMemory>
    requires { registers ≤ 4096 }
    ensures { IfOk result (λ t. t ≡ cover_of registers word) }
{
    let inputs = [
        source(registers, word),
        source(registers, word >> 16),
        source(registers, word >> 32),
    ];
    let inputs = Seq::of(Vec::from_slice(alloc, &inputs)?);
    let rows = rows(alloc, ((word >> 48) % 256) as u8)?;
    Ok(Table::of(inputs, rows, true))
}

// The column or register that the lowest sixteen bits name.
fn source(registers: u32, bits: u64) -> NetId
    requires { registers ≤ 4096 }
    ensures { result ≡ source_of registers bits }
{
    NetId::new((bits % 65_536) as u32 % (registers + 2))
}

// The registers, by their words.
pub(crate) fn registers_in(
    alloc: Global,
    registers: u32,
    words: &[u64],
) -> Result<Seq<Register>, OutOfMemory>
    requires few { registers ≤ 4096 }
    requires words { length words.now ≤ 4096 }
    ensures { IfOk result (λ r. r ≡ registers_of registers (length words.now) words.now) }
{
    let mut all = Vec::with_capacity(alloc, words.len())?;
    for (j, word) in words.iter().enumerate() {
        all.push(Register {
            data_net: data_net(registers, j as u32),
            output: register_net(j as u32),
            edge: Some(Edge::Rising),
            control: None,
            initial: ((*word >> 56) % 2) as u8,
            line: 0,
        })?;
    }
    Ok(Seq::of(all))
}
