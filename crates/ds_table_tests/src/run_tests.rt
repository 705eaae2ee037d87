//! A run on one pass, and its record.
ghost use Rattle.std.specs.Prelude.{◌≡◌, ◌<◌, IfSome};
ghost use Rattle.ds_table_tests.specs.Toggle.{toggle, HoldsBoth};

use crate::toggle::{Toggle, begin, end, fired, has, step, table_run};
use ds_base::{EventId, LatchId, OutOfMemory, Row3, Value};
use ds_fabric::{Fabric, Pass, Record, unpack};
use ds_rule::TableRun;
use std::alloc::Global;

// In each turn the master opens and closes, then the slave: the master needs the slave's turn
// before, the slave the master's. An event, and its turn.
const FIRINGS: [(u32, u64); 8] = [
    (2, 1),
    (3, 1),
    (0, 1),
    (1, 1),
    (2, 2),
    (3, 2),
    (0, 2),
    (1, 2),
];

// So many of these firings, one after another, and no other.
fn fires(fabric: &Fabric<Toggle, Toggle>, pass: &mut Pass, many: u64) -> bool
    requires { HoldsBoth fabric.now pass.old }
    ensures { HoldsBoth fabric.now pass.new }
{
    let mut ticket = 0;
    for (event, turn) in FIRINGS {
        if ticket < many {
            let node = if event < 2 { 0 } else { 1 };
            if step(fabric, pass, node) != fired(event, turn, ticket) {
                return false;
            }
            ticket += 1;
        }
    }
    true
}

// The record after so many of these firings; none where memory is lacking or another event fired.
fn record_of(alloc: Global, run: &TableRun<Toggle>, many: u64) -> Option<Record>
    requires { run.now ≡ toggle }
    ensures { IfSome result (λ r. r.shown.view.run ≡ toggle) }
{
    let Ok((fabric, mut pass)) = begin(alloc, run) else {
        return None;
    };
    if fires(&fabric, &mut pass, many) {
        Some(end(fabric, pass))
    } else {
        None
    }
}

// The same of a run that is laid out anew.
fn record_after(alloc: Global, many: u64) -> Option<Record>
    ensures { IfSome result (λ r. r.shown.view.run ≡ toggle) }
{
    let Ok(run) = table_run(alloc) else {
        return None;
    };
    record_of(alloc, &run, many)
}

// Whether these are the events of all firings, in order.
fn are_firings(events: &[EventId]) -> bool {
    let mut at = 0;
    for (want, _) in FIRINGS {
        if at >= events.len() || events[at] != EventId::new(want) {
            return false;
        }
        at += 1;
    }
    at == events.len()
}

// Whether a record has all firings.
fn has_firings(alloc: Global, from: &Record) -> Result<bool, OutOfMemory> {
    let firings = from.firings(alloc)?;
    Ok(are_firings(&firings))
}

#[test]
fn a_register_turns_over(rt: HostRuntime) {
    let Some(record) = record_after(rt.alloc(), 8) else {
        panic!(rt; "firings");
    };
    assert!(rt; matches!(has_firings(rt.alloc(), &record), Ok(true)));
}

#[test]
fn each_event_has_its_tickets(rt: HostRuntime) {
    let Some(record) = record_after(rt.alloc(), 7) else {
        panic!(rt; "firings");
    };
    let slave = has(&record, 0, &[2, 6]) && has(&record, 1, &[3]);
    assert!(rt; slave && has(&record, 2, &[0, 4]) && has(&record, 3, &[1, 5]));
}

// The words of both rows that a latch may store.
type Words = (Option<u64>, Option<u64>);

// Whether the slave and the master have stored these words after so many firings.
fn stores(alloc: Global, many: u64, slave: Words, master: Words) -> bool {
    match record_after(alloc, many) {
        Some(record) => words_of(&record, 0) == slave && words_of(&record, 1) == master,
        None => false,
    }
}

// The values are one and zero, turn by turn, with the codes 1 and 0. A latch that is open has not
// stored what it shows.
#[test]
fn a_latch_stores_when_it_closes(rt: HostRuntime) {
    let alloc = rt.alloc();
    let (none, one, both) = ((None, None), (Some(1), None), (Some(1), Some(0)));
    let opened = stores(alloc, 0, none, none) && stores(alloc, 1, none, none);
    assert!(rt; opened && stores(alloc, 2, none, one) && stores(alloc, 3, none, one));
    let closed = stores(alloc, 4, one, one) && stores(alloc, 7, one, both);
    assert!(rt; closed && stores(alloc, 8, both, both));
}

// The words that a latch has stored.
fn words_of(from: &Record, node: u32) -> Words
    requires run { from.now.shown.view.run ≡ toggle }
    requires node { node < 2 }
{
    (word_of(from, node, 0), word_of(from, node, 1))
}

// The word of a row; none where it is not stored.
fn word_of(from: &Record, node: u32, k: usize) -> Option<u64>
    requires run { from.now.shown.view.run ≡ toggle }
    requires node { node < 2 }
{
    let node = LatchId::new(node);
    if from.stored(node) <= k {
        None
    } else {
        Some(from.word(node, k, 0))
    }
}

// Whether a latch has stored a one and then a zero.
fn has_values(alloc: Global, from: &Record, node: u32) -> bool
    requires run { from.now.shown.view.run ≡ toggle }
    requires node { node < 2 }
{
    value_of(alloc, from, node, 0) == Some(Value::One)
        && value_of(alloc, from, node, 1) == Some(Value::Zero)
}

#[test]
fn a_stored_row_has_its_values(rt: HostRuntime) {
    let Some(record) = record_after(rt.alloc(), 8) else {
        panic!(rt; "firings");
    };
    assert!(rt; has_values(rt.alloc(), &record, 0) && has_values(rt.alloc(), &record, 1));
}

// The value of a stored row; none where it is not stored, or memory is lacking.
fn value_of(alloc: Global, from: &Record, node: u32, k: u64) -> Option<Value>
    requires run { from.now.shown.view.run ≡ toggle }
    requires node { node < 2 }
{
    let Ok(mut row) = Row3::with_len(alloc, 1) else {
        return None;
    };
    if from.count(EventId::new(2 * node + 1)) <= k {
        return None;
    }
    from.row(LatchId::new(node), k as usize, &mut row);
    if row.len() == 1 {
        Some(row.value(0))
    } else {
        None
    }
}

// Codes are 0, 1 and 2, two bits each, the first value the lowest: 36 is zero, one, unknown.
#[test]
fn a_row_is_read_back(rt: HostRuntime) {
    let Ok(mut row) = Row3::with_len(rt.alloc(), 3) else {
        panic!(rt; "memory");
    };
    unpack(&[36], &mut row);
    assert!(rt; row.len() == 3 && row.value(0) == Value::Zero);
    assert!(rt; row.value(1) == Value::One && row.value(2) == Value::Unknown);
}
