//! Tables, the same packed, and banks of one table, each with the value that a case gives.
ghost use Rattle.std.specs.Prelude.{◌<◌, All, IsTrue};

use ds_base::{NetId, OutOfMemory, Row3, Seq, Value};
use ds_cover::{Bank, Packed, Table};
use std::alloc::Global;

// A line for each case: how many inputs, `on` where the rows list the ones and `off` where they
// list the zeros, the values of the inputs, the value of the table, and its rows, `.` where it has
// none. Of a text that is shorter than the inputs the first character stands in front as often as
// it takes; `_` is the empty text.
const CASES: &str = "0 on _ 1 _
0 off _ 0 _
0 on _ 0 .
2 off x 1 .
2 on 11 1 11
2 on 1x x 11
2 on 0x 0 11
2 on x1 1 1- -1
2 off 10 1 11 00
2 off 00 0 11 00
2 on 10 0 ?
1 on 0 1 0
1 on x x 0
3 on 011 1 011
3 on 110 0 011
3 off 0x1 1 1-0 -10
3 on 0x0 x 1-0 -10
4 on 0001 1 0001
4 on 0111 0 0110
6 on x0 1 -0
6 on 01 1 1 01
7 on 1x x 1
7 off 10 1 1
64 on 0 1 1 0
65 on 10 0 1
65 on x1 1 -1
130 off 1x x 1 10
2 on 01 0 11 00
2 on 11 0 .
2 off xx 1 .
";

// A case, as its line tells it.
#[derive(Clone, Copy)]
struct Case<'t> {
    width: u32,
    on: bool,
    nets: &'t str,
    value: Value,
    rows: &'t str,
}

// The case of a line, where it tells one.
fn case_of(line: &str) -> Option<Case<'_>> {
    let (width, on, rest) = kind_of(line)?;
    let (nets, rest) = rest.split_once(' ')?;
    let (value, rows) = rest.split_once(' ')?;
    Some(Case {
        width,
        on,
        nets,
        value: value_of(value),
        rows,
    })
}

// How many inputs a line tells, whether its rows list the ones, and the rest of the line.
fn kind_of(line: &str) -> Option<(u32, bool, &str)> {
    let (width, rest) = line.split_once(' ')?;
    let (kind, rest) = rest.split_once(' ')?;
    match width.parse::<u32>() {
        Ok(width) => Some((width, kind == "on", rest)),
        Err(_) => None,
    }
}

// The value of a character.
fn value_of(text: &str) -> Value {
    match text {
        "0" => Value::Zero,
        "1" => Value::One,
        _ => Value::Unknown,
    }
}

// A text of this length: its first character stands in front as often as it takes.
fn spread(alloc: Global, text: &str, width: usize) -> Result<Vec<u8>, OutOfMemory> {
    let text = if text == "_" { "" } else { text };
    let mut bytes = Vec::new(alloc);
    if let Some(first) = text.as_bytes().first() {
        for _ in text.len()..width {
            bytes.push(*first)?;
        }
    }
    bytes.extend_from_slice(text.as_bytes())?;
    Ok(bytes)
}

fn nets(alloc: Global, text: &str, width: usize) -> Result<Row3, OutOfMemory> {
    let mut values = Vec::new(alloc);
    for mark in spread(alloc, text, width)?.iter() {
        values.push(match *mark {
            b'0' => Value::Zero,
            b'1' => Value::One,
            _ => Value::Unknown,
        })?;
    }
    Ok(Row3::of(values))
}

// The same with an unknown net behind.
fn nets_and_one(alloc: Global, text: &str, width: usize) -> Result<Row3, OutOfMemory> {
    let front = nets(alloc, text, width)?;
    let mut values = Vec::new(alloc);
    for i in 0..front.len() {
        values.push(front.value(i))?;
    }
    values.push(Value::Unknown)?;
    Ok(Row3::of(values))
}

// The first nets.
fn inputs(alloc: Global, width: u32) -> Result<Seq<NetId>, OutOfMemory> {
    let mut inputs = Vec::new(alloc);
    for net in 0..width {
        inputs.push(NetId::new(net))?;
    }
    Ok(Seq::of(inputs))
}

// These rows, a blank between two; no rows for a point.
fn list(alloc: Global, rows: &str, width: usize) -> Result<Seq<Seq<u8>>, OutOfMemory> {
    let mut list = Seq::new(alloc);
    if rows != "." {
        for text in rows.split(' ') {
            list.push(Seq::of(spread(alloc, text, width)?))?;
        }
    }
    Ok(list)
}

// A table of the first nets, with these rows; none where a row has not a character for each.
fn table(alloc: Global, width: u32, rows: &str, on: bool) -> Result<Option<Table>, OutOfMemory> {
    let rows = list(alloc, rows, width as usize)?;
    let inputs = inputs(alloc, width)?;
    let count = inputs.as_slice().len();
    let fit = rows
        .as_slice()
        .iter()
        .all(|row| row.as_slice().len() == count);
    Ok(if fit {
        Some(Table::of(inputs, rows, on))
    } else {
        None
    })
}

// Whether a table reads the first so many nets alone.
fn reads_first(table: &Table, count: usize) -> bool
    ensures { IsTrue result → All (λ net. net < count) table.now.inputs }
{
    table.inputs().iter().all(|net| net.index() < count)
}

// The value of the table, and the value of the same table packed.
fn values(
    alloc: Global,
    table: &Table,
    nets: &Row3,
) -> Result<Option<(Value, Value)>, OutOfMemory> {
    let packed = Packed::of(alloc, table)?;
    if reads_first(table, nets.len()) {
        Ok(Some((table.value(nets), packed.value(nets))))
    } else {
        Ok(None)
    }
}

// What stands at the last net once a bank of this table alone, which drives it, has set it: by its
// number, and among all tables.
fn set_last(
    alloc: Global,
    table: &Table,
    nets: &mut Row3,
    others: &mut Row3,
) -> Result<Option<(Value, Value)>, OutOfMemory> {
    let count = nets.len();
    if count == 0 || count > 4096 || others.len() != count || !reads_first(table, count) {
        return Ok(None);
    }
    let mut bank = Bank::new(alloc);
    bank.add(table, NetId::new(count as u32 - 1))?;
    bank.set(0, nets);
    bank.set_all(&[0], others);
    Ok(Some((nets.value(count - 1), others.value(count - 1))))
}

// Whether the table of a line has its value.
fn is_had(alloc: Global, line: &str) -> Result<bool, OutOfMemory> {
    let Some(case) = case_of(line) else {
        return Ok(false);
    };
    match table(alloc, case.width, case.rows, case.on)? {
        Some(table) => has_value(alloc, &table, &case),
        None => Ok(false),
    }
}

// Whether a table has the value of a case.
fn has_value(alloc: Global, table: &Table, case: &Case<'_>) -> Result<bool, OutOfMemory> {
    let nets = nets(alloc, case.nets, case.width as usize)?;
    let got = values(alloc, table, &nets)?;
    Ok(got == Some((case.value, case.value)))
}

// Whether a bank of the table of a line sets the net behind the inputs to its value.
fn is_set(alloc: Global, line: &str) -> Result<bool, OutOfMemory> {
    let Some(case) = case_of(line) else {
        return Ok(false);
    };
    match table(alloc, case.width, case.rows, case.on)? {
        Some(table) => sets_value(alloc, &table, &case),
        None => Ok(false),
    }
}

// Whether a bank of a table sets the net behind the inputs to the value of a case.
fn sets_value(alloc: Global, table: &Table, case: &Case<'_>) -> Result<bool, OutOfMemory> {
    let mut row = nets_and_one(alloc, case.nets, case.width as usize)?;
    let mut other = nets_and_one(alloc, case.nets, case.width as usize)?;
    let got = set_last(alloc, table, &mut row, &mut other)?;
    Ok(got == Some((case.value, case.value)))
}

// A table and the same packed.
#[test]
fn a_packed_table_has_the_value_of_its_rows(rt: HostRuntime) {
    for line in CASES.lines() {
        assert!(rt; matches!(is_had(rt.alloc(), line), Ok(true)), "{line}");
    }
}

// The table drives a net behind its inputs.
#[test]
fn a_bank_sets_what_its_table_drives(rt: HostRuntime) {
    for line in CASES.lines() {
        assert!(rt; matches!(is_set(rt.alloc(), line), Ok(true)), "{line}");
    }
}

// Adds a table of the first nets, with these rows, to a bank; not where they are not its rows.
fn add(alloc: Global, bank: &mut Bank, width: u32, rows: &str) -> Result<(), OutOfMemory> {
    match table(alloc, width, rows, true)? {
        Some(table) => bank.add(&table, NetId::new(width)),
        None => Ok(()),
    }
}

// How many tables a bank has, and how many once two are added.
fn counts(alloc: Global) -> Result<(usize, usize), OutOfMemory> {
    let mut bank = Bank::new(alloc);
    let before = bank.len();
    add(alloc, &mut bank, 2, "1")?;
    add(alloc, &mut bank, 0, ".")?;
    Ok((before, bank.len()))
}

// The tables of a bank have the numbers from 0.
#[test]
fn a_bank_counts_its_tables(rt: HostRuntime) {
    assert!(rt; matches!(counts(rt.alloc()), Ok((0, 2))));
}

// The value of a table on these nets; none where it reads others.
fn value_on(table: &Table, nets: &Row3) -> Option<Value> {
    if reads_first(table, nets.len()) {
        Some(table.value(nets))
    } else {
        None
    }
}

// The value of a table of two rows, the first input unknown.
fn value_of_two_rows(alloc: Global) -> Result<Option<Value>, OutOfMemory> {
    let row = nets(alloc, "x1", 2)?;
    Ok(match table(alloc, 2, "1- -1", true)? {
        Some(table) => value_on(&table, &row),
        None => None,
    })
}

// The value of a table that is not packed.
#[test]
fn a_table_has_its_value(rt: HostRuntime) {
    assert!(rt; matches!(value_of_two_rows(rt.alloc()), Ok(Some(Value::One))));
}
