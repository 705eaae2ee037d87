//! Keys of registers, one for those that belong together.
ghost use Rattle.std.specs.Prelude.{◌≡◌, ◌<◌, ◌+◌, ◌^◌, ⊤, length, replicate, All, IfOk};
ghost use Rattle.ds_base.specs.declared.number.Mode.TheVariants.{Bus as ByBus};
ghost use Rattle.ds_design.specs.Groups.{AreDisjoint};
ghost use Rattle.ds_split.specs.Cluster.{Agree};
ghost use Rattle.ds_split.specs.Grouped.{BelongTogether};
ghost use Rattle.ds_split.specs.Keyed.{AreKeys, AreMixed, mixed_key};

use crate::bus::bus_of;
use crate::buses::Buses;
use crate::holders::holders_of;
use ds_base::{Mode, OutOfMemory, RegId, Seq};
use ds_design::Design;
use std::alloc::{AllocError, Global};

/// The keys of a design's registers. Those of a group have its place, and the others come behind
/// the groups, by the mode.
pub(crate) fn keys_of(
    alloc: Global,
    design: &Design,
    mode: Mode,
    groups: &[Seq<RegId>],
) -> Result<Vec<usize>, OutOfMemory>
    requires { AreDisjoint (length design.now.registers) groups.now }
    ensures { IfOk result (λ keys. AreKeys (BelongTogether design.now mode groups.now)
        (length design.now.registers)
        (length groups.now + length design.now.registers) keys.items) }
{
    let keys = mode_keys(alloc, design, mode)?;
    let holders = holders_of(alloc, design.registers().len(), groups)?;
    Ok(mixed(alloc, groups.len(), &holders, &keys)?)
}

// The keys by groups, and those behind them by the mode. `groups` is how many groups there are.
fn mixed(
    alloc: Global,
    groups: usize,
    holders: &[usize],
    keys: &[usize],
) -> Result<Vec<usize>, AllocError>
    requires one_each { length keys.now ≡ length holders.now }
    requires few { All (λ key. groups + key < 2 ^ 64) keys.now }
    ensures { IfOk result (λ mixed. AreMixed groups holders.now keys.now mixed.items) }
{
    let mut mixed = Vec::new(alloc);
    for i in 0..holders.len() {
        mixed.push(mixed_at(groups, holders[i], keys[i]))?;
    }
    Ok(mixed)
}

// The key of a register, by its group and its key by the mode.
fn mixed_at(groups: usize, holder: usize, key: usize) -> usize
    requires { groups + key < 2 ^ 64 }
    ensures { result ≡ mixed_key groups holder key }
{
    if holder == 0 {
        groups + key
    } else {
        holder - 1
    }
}

// The keys by a mode.
fn mode_keys(alloc: Global, design: &Design, mode: Mode) -> Result<Vec<usize>, OutOfMemory>
    ensures { IfOk result (λ keys. AreKeys (Agree design.now mode)
        (length design.now.registers) (length design.now.registers) keys.items) }
{
    let count = design.registers().len();
    match mode {
        Mode::Each => rising(alloc, count),
        Mode::One => alike(alloc, count),
        Mode::Bus => by_bus(alloc, design),
    }
}

// A key of its own for each register.
fn rising(alloc: Global, count: usize) -> Result<Vec<usize>, OutOfMemory>
    ensures { IfOk result (λ keys. AreKeys (λ a b. a ≡ b) count count keys.items) }
{
    Ok((0..count).collect(alloc)?)
}

// One key for all registers.
fn alike(alloc: Global, count: usize) -> Result<Vec<usize>, OutOfMemory>
    ensures { IfOk result (λ keys. AreKeys (λ a b. ⊤) count count keys.items) }
{
    Ok(zeros(alloc, count)?)
}

// So many zeros.
fn zeros(alloc: Global, count: usize) -> Result<Vec<usize>, OutOfMemory>
    ensures { IfOk result (λ zeros. zeros.items ≡ replicate count 0) }
{
    Ok(vec![in alloc; 0; count]?)
}

// A key for each bus that registers drive.
fn by_bus(alloc: Global, design: &Design) -> Result<Vec<usize>, OutOfMemory>
    ensures { IfOk result (λ keys. AreKeys (Agree design.now ByBus)
        (length design.now.registers) (length design.now.registers) keys.items) }
{
    let nets = design.nets();
    let mut buses = Buses::new(alloc);
    let mut keys = Vec::new(alloc);
    for register in design.registers() {
        keys.push(buses.place(bus_of(nets, register))?)?;
    }
    Ok(keys)
}
