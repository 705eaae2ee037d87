//! The tables in an order in which those of one kind and group stand one behind another.
ghost use Rattle.std.specs.Prelude.{◌≡◌, ◌<◌, ℕ, true, All, IfOk, None, Some, length};
ghost use Rattle.std.specs.Prelude.{slice_index_or};
ghost use Rattle.ds_opening.specs.Scheduled.{AreDriversBelow, AreLower, AreReadWithin};
ghost use Rattle.ds_opening.specs.Scheduled.{AreScheduled, IsLower};

use crate::ranked::by_rank;
use crate::table_numbers::TableNumbers;
use ds_base::{NetId, OutOfMemory};
use ds_design::{Gate, Netlist};
use ds_settle::drivers_of;
use std::alloc::Global;

// Ranks are dealt in rounds, each of tables of one kind, the kinds in turn.
const KINDS: usize = 6;

const ROUND: usize = 0x1_0000_0000;

/// All tables, each behind those of its group that it reads, and in a group few runs of a kind: a
/// run takes all tables that are ready.
pub(crate) fn scheduled(
    alloc: Global,
    netlist: &Netlist,
    numbers: &TableNumbers,
) -> Result<Vec<u32>, OutOfMemory>
    requires { length numbers.now.of.items ≡ length netlist.now.tables }
    ensures ok { IfOk result (λ v. AreScheduled netlist.now numbers.now.of.items v.items) }
{
    let of = numbers.of.as_slice();
    let (gates, order) = (netlist.design().tables(), netlist.order());
    let drivers = drivers_of(alloc, netlist)?;
    let ranks = ranks_of(alloc, gates, order, drivers.as_slice(), of)?;
    if are_lower(gates, drivers.as_slice(), of, ranks.as_slice()) {
        return by_rank(alloc, order, ranks.as_slice());
    }
    // No other order is known to be right.
    let mut same = Vec::new(alloc);
    same.extend_from_slice(order)?;
    Ok(same)
}

// A rank for each table, higher than those of its group that it reads.
fn ranks_of(
    alloc: Global,
    gates: &[Gate],
    order: &[u32],
    drivers: &[Option<u32>],
    numbers: &[u32],
) -> Result<Vec<usize>, OutOfMemory>
    requires inputs { AreReadWithin (length drivers.now) gates.now }
    requires order { All (λ k. k < length gates.now) order.now }
    requires drivers { AreDriversBelow (length gates.now) drivers.now }
    requires numbers { length numbers.now ≡ length gates.now }
    ensures { IfOk result (λ v. length v.items ≡ length gates.now) }
{
    let mut ranks: Vec<usize> = vec![in alloc; 0; gates.len()]?;
    for table in order {
        let k = *table as usize;
        let inputs = gates[k].table.inputs();
        let read = highest_read(inputs, k, drivers, numbers, ranks.as_slice());
        ranks[k] = rank_behind(read, inputs.len());
    }
    Ok(ranks)
}

// The highest rank of what drives these nets and has the number of this table, or 0.
fn highest_read(
    inputs: &[NetId],
    table: usize,
    drivers: &[Option<u32>],
    numbers: &[u32],
    ranks: &[usize],
) -> usize
    requires inputs { All (λ net. net < length drivers.now) inputs.now }
    requires table { table < length numbers.now }
    requires drivers { AreDriversBelow (length numbers.now) drivers.now }
    requires ranks { length ranks.now ≡ length numbers.now }
{
    let mut highest = 0;
    for net in inputs {
        highest = highest.max(rank_read(drivers[net.index()], table, numbers, ranks));
    }
    highest
}

// The rank of this table where it has the number of the other, else 0.
fn rank_read(driver: Option<u32>, table: usize, numbers: &[u32], ranks: &[usize]) -> usize
    requires table { table < length numbers.now }
    requires driver { (j : ℕ) → driver ≡ Some j → j < length numbers.now }
    requires ranks { length ranks.now ≡ length numbers.now }
{
    match driver {
        Some(other) if numbers[other as usize] == numbers[table] => ranks[other as usize],
        _ => 0,
    }
}

// The next rank behind this one, of a table of so many inputs: in the same round where that is one
// of its kind, else in the next one of these.
fn rank_behind(read: usize, inputs: usize) -> usize {
    let kind = if inputs == 0 {
        KINDS - 1
    } else {
        inputs.max(2).min(KINDS + 1) - 2
    };
    let round = read / ROUND;
    let wait = (kind + KINDS - round % KINDS) % KINDS;
    if wait == 0 {
        read.saturating_add(1)
    } else {
        (round + wait).saturating_mul(ROUND)
    }
}

// Whether each table has a higher rank than those of its number that it reads.
fn are_lower(gates: &[Gate], drivers: &[Option<u32>], numbers: &[u32], ranks: &[usize]) -> bool
    requires inputs { AreReadWithin (length drivers.now) gates.now }
    requires drivers { AreDriversBelow (length gates.now) drivers.now }
    requires numbers { length numbers.now ≡ length gates.now }
    requires ranks { length ranks.now ≡ length gates.now }
    ensures { result ≡ true → AreLower drivers.now numbers.now ranks.now gates.now }
{
    for k in 0..gates.len() {
        if !are_read_lower(gates[k].table.inputs(), k, drivers, numbers, ranks) {
            return false;
        }
    }
    true
}

// The same of one table.
fn are_read_lower(
    inputs: &[NetId],
    table: usize,
    drivers: &[Option<u32>],
    numbers: &[u32],
    ranks: &[usize],
) -> bool
    requires inputs { All (λ net. net < length drivers.now) inputs.now }
    requires table { table < length numbers.now }
    requires drivers { AreDriversBelow (length numbers.now) drivers.now }
    requires ranks { length ranks.now ≡ length numbers.now }
    ensures { result ≡ true
        → All (λ net. IsLower numbers.now ranks.now table (slice_index_or drivers.now net None))
        inputs.now }
{
    for net in inputs {
        if !is_lower(drivers[net.index()], table, numbers, ranks) {
            return false;
        }
    }
    true
}

// The same of what drives a net.
fn is_lower(driver: Option<u32>, table: usize, numbers: &[u32], ranks: &[usize]) -> bool
    requires table { table < length numbers.now }
    requires driver { (j : ℕ) → driver ≡ Some j → j < length numbers.now }
    requires ranks { length ranks.now ≡ length numbers.now }
    ensures { result ≡ true → IsLower numbers.now ranks.now table driver }
{
    match driver {
        None => true,
        Some(other) => {
            let j = other as usize;
            numbers[j] != numbers[table] || ranks[j] < ranks[table]
        }
    }
}
