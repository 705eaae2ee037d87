//! The design, vectors and sums of the seed 0, worked by hand from the first words of the
//! generator.
ghost use Rattle.std.specs.Prelude.{◌≤◌};

use ds_base::{NetId, OutOfMemory, Row3, Value};
use ds_cover::Table;
use ds_demo::{Fold, make};
use ds_design::{Design, Edge, Gate, Register, Vectors};
use std::alloc::Global;

fn bit(number: usize, i: usize) -> Value {
    if i < 8 && (number >> i) % 2 == 1 {
        Value::One
    } else {
        Value::Zero
    }
}

// Nets whose values are the bits of a number.
fn bits(alloc: Global, nets: usize, number: usize) -> Result<Row3, OutOfMemory> {
    let mut row = Row3::with_len(alloc, nets)?;
    for i in 0..nets {
        if i < row.len() {
            row.set(i, bit(number, i));
        }
    }
    Ok(row)
}

// Whether a table has this value where the nets are the bits of a number.
fn has_value(alloc: Global, table: &Table, number: usize, want: Value) -> bool {
    let Ok(row) = bits(alloc, 6, number) else {
        return false;
    };
    let len = row.len();
    table.inputs().iter().all(|net| net.index() < len) && table.value(&row) == want
}

// Whether a design has these nets, none of them a copy, and its name.
fn has_nets(design: &Design, names: &[&str]) -> bool {
    if design.name() != b"demo".as_slice() || design.nets().len() != names.len() {
        return false;
    }
    for (net, name) in design.nets().iter().zip(names) {
        if net.copy != 0 || net.name.as_slice() != name.as_bytes() {
            return false;
        }
    }
    true
}

// Whether a register reads and drives these nets, and begins with zero on a rising edge.
fn is_register(register: &Register, data_net: usize, output: usize) -> bool {
    register.data_net.index() == data_net
        && register.output.index() == output
        && register.edge == Some(Edge::Rising)
        && register.control == None
        && register.initial == 0
}

// Whether a design has the two registers, and nothing but them is clocked.
fn has_registers(design: &Design) -> bool {
    match design.registers() {
        [first, second] => {
            let both = is_register(first, 4, 2) && is_register(second, 5, 3);
            both && design.clocks().is_empty()
        }
        _ => false,
    }
}

// Whether a design has the worked inputs and outputs.
fn has_ports(design: &Design) -> bool {
    design.inputs() == [NetId::new(0), NetId::new(1)].as_slice()
        && design.outputs() == [NetId::new(4), NetId::new(3)].as_slice()
}

// Two registers and three turns of the seed 0, worked by hand from the first five words.
#[test]
fn the_seed_zero_gives_the_worked_nets(rt: HostRuntime) {
    let Ok((design, _)) = make(rt.alloc(), 0, 2, 3) else {
        panic!(rt; "memory");
    };
    let nets = has_nets(&design, &["x0", "x1", "r0", "r1", "d0", "d1"]);
    assert!(rt; nets && has_ports(&design) && has_registers(&design));
}

// Whether two tables read and drive the worked nets.
fn have_nets(first: &Gate, second: &Gate) -> bool {
    let (r1, x1, r0, x0) = (NetId::new(3), NetId::new(1), NetId::new(2), NetId::new(0));
    first.table.inputs() == [r1, x1, x1].as_slice()
        && second.table.inputs() == [x0, x1, r0].as_slice()
        && (first.output.index(), second.output.index()) == (4, 5)
}

// Whether two tables have the worked values at all numbers.
fn have_values(alloc: Global, first: &Table, second: &Table) -> bool {
    for number in 0..16 {
        let want = if matches!(number % 8, 3..=6) {
            Value::One
        } else {
            Value::Zero
        };
        let zero = has_value(alloc, first, number, Value::Zero);
        if !zero || !has_value(alloc, second, number, want) {
            return false;
        }
    }
    true
}

// Whether these are the two worked tables.
fn are_worked(alloc: Global, tables: &[Gate]) -> bool {
    match tables {
        [first, second] => {
            have_nets(first, second) && have_values(alloc, &first.table, &second.table)
        }
        _ => false,
    }
}

// The table of `d0` would need x1 to be 0 and 1; that of `d1` is 1 at 3, 4, 5 and 6 of x0 + 2 x1 +
// 4 r0.
#[test]
fn the_seed_zero_gives_the_worked_tables(rt: HostRuntime) {
    let Ok((design, _)) = make(rt.alloc(), 0, 2, 3) else {
        panic!(rt; "memory");
    };
    assert!(rt; are_worked(rt.alloc(), design.tables()));
}

// Whether a row has this value twice.
fn is_twice(row: &Row3, value: Value) -> bool {
    row.len() == 2 && row.value(0) == value && row.value(1) == value
}

// Whether three vectors of two columns are one, zero and one.
fn are_three(vectors: &Vectors) -> bool {
    vectors.count() == 3
        && vectors.width() == 2
        && is_twice(vectors.row(0), Value::One)
        && is_twice(vectors.row(1), Value::Zero)
        && is_twice(vectors.row(2), Value::One)
}

#[test]
fn the_seed_zero_gives_the_worked_vectors(rt: HostRuntime) {
    let Ok((_, vectors)) = make(rt.alloc(), 0, 2, 3) else {
        panic!(rt; "memory");
    };
    assert!(rt; are_three(&vectors));
}

// How many registers and vectors are made of the largest seed, where so many are asked for.
fn made(alloc: Global, registers: u32, turns: u32) -> Result<(usize, usize), OutOfMemory>
    requires registers { (1 ≤ registers) × (registers ≤ 4096) }
    requires turns { turns ≤ 65536 }
{
    let (design, vectors) = make(alloc, u64::MAX, registers, turns)?;
    Ok((design.registers().len(), vectors.count()))
}

#[test]
fn memory_for_the_largest_is_found(rt: HostRuntime) {
    let alloc = rt.alloc();
    assert!(rt; matches!(made(alloc, 1, 0), Ok((1, 0))));
    assert!(rt; matches!(made(alloc, 4_096, 0), Ok((4_096, 0))));
    assert!(rt; matches!(made(alloc, 1, 65_536), Ok((1, 65_536))));
    assert!(rt; matches!(made(alloc, 4_096, 65_536), Ok((4_096, 65_536))));
}

// 101 + 2 x 110 + 3 x 100 + 4 x 32 + 5 x 48 + 6 x 48 + 7 x 10 for the line.
#[test]
fn texts_have_the_worked_sums(rt: HostRuntime) {
    let mut line = Fold::new();
    line.add(b"end 00\n");
    assert_eq!(rt; line.sum(), 1_347);
    let mut trace = Fold::new();
    for part in ["0 00 00\n1 01", "", " 01\n2 00 00\nend 01\n"] {
        trace.add(part.as_bytes());
    }
    assert_eq!(rt; trace.sum(), 23_695);
}
