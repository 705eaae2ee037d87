//! The values of nets beside a plain slow way to find them.
use ds_base::{Row3, Value};
use ds_design::{Gate, Netlist, Register};
use ds_settle::settle;
use ds_stage::{Stop, read_netlist};
use ds_trial::files;
use std::alloc::{AllocError, Global};

// Tables against the order of the file, an off-set beside an on-set, constants, two registers, and
// copies in one another. A line `%` stands between two netlists.
const NETLISTS: &str = ".model a
.inputs a b
.outputs y
.names u a y
1- 1
-0 1
.names t b u
11 0
.names a b t
10 1
01 1
.end
%
.model b
.inputs a
.outputs y z
.names k a y
11 1
.names k
1
.names z
.names z y w
00 1
.end
%
.model c
.inputs e
.outputs q r
.names q r e d
1-1 1
-10 1
.latch d q 0
.names d q n
01 1
10 1
.latch n r 1
.end
%
.model d
.inputs a b
.outputs y
.subckt x p=a q=b o=t
.subckt x p=t q=a o=y
.end
.model x
.inputs p q
.outputs o
.subckt i i=p o=n
.names n q o
11 1
.end
.model i
.inputs i
.outputs o
.names i o
0 1
.end
%
.model e
.inputs a
.outputs free q
.names a free u
1- 1
.names u v
1 0
.names v u2
1 1
.names free
.latch v q 2
.end
";

// So many values: the digits of a number to the base 3, the lowest first, with 2 for unknown.
fn row_of(alloc: Global, len: usize, number: usize) -> Result<Row3, AllocError> {
    let mut values = Vec::new(alloc);
    let mut rest = number;
    for _ in 0..len {
        values.push(digit(rest % 3))?;
        rest /= 3;
    }
    Ok(Row3::of(values))
}

fn digit(number: usize) -> Value {
    match number {
        0 => Value::Zero,
        1 => Value::One,
        _ => Value::Unknown,
    }
}

// The value that a register gives to a net, where one drives it.
fn from_registers(registers: &[Register], state: &Row3, net: usize) -> Option<Value> {
    for (k, register) in registers.iter().enumerate() {
        if register.output.index() == net && k < state.len() {
            return Some(state.value(k));
        }
    }
    None
}

// The value that a table gives to a net, where one drives it.
fn from_tables(tables: &[Gate], nets: &Row3, net: usize) -> Option<Value> {
    for gate in tables {
        if gate.output.index() == net {
            let within = gate
                .table
                .inputs()
                .iter()
                .all(|input| input.index() < nets.len());
            return if within {
                Some(gate.table.value(nets))
            } else {
                None
            };
        }
    }
    None
}

// The value that a column gives to a net, where it is one.
fn from_columns(netlist: &Netlist, vector: &Row3, net: usize) -> Option<Value> {
    for (k, column) in netlist.columns().iter().enumerate() {
        if column.index() == net && k < vector.len() {
            return Some(vector.value(k));
        }
    }
    None
}

// Each net by what drives it, from what the nets were; 0 where nothing does.
fn stepped(
    alloc: Global,
    netlist: &Netlist,
    state: &Row3,
    vector: &Row3,
    nets: &Row3,
) -> Result<Row3, AllocError> {
    let design = netlist.design();
    let mut values = Vec::new(alloc);
    for net in 0..design.nets().len() {
        let value = from_columns(netlist, vector, net)
            .or(from_registers(design.registers(), state, net))
            .or(from_tables(design.tables(), nets, net));
        values.push(value.unwrap_or(Value::Zero))?;
    }
    Ok(Row3::of(values))
}

// Whether settling gives what so many steps give as there are nets.
fn agrees(
    alloc: Global,
    netlist: &Netlist,
    state: &Row3,
    vector: &Row3,
) -> Result<bool, AllocError> {
    let count = netlist.design().nets().len();
    let mut slow = row_of(alloc, count, 0)?;
    let mut fast = row_of(alloc, count, 0)?;
    for _ in 0..count {
        slow = stepped(alloc, netlist, state, vector, &slow)?;
    }
    let fits = state.len() == netlist.design().registers().len();
    if !fits || vector.len() != netlist.columns().len() || fast.len() != count {
        return Ok(false);
    }
    settle(netlist, state, vector, &mut fast);
    Ok(same(&fast, &slow))
}

fn same(one: &Row3, other: &Row3) -> bool {
    if one.len() != other.len() {
        return false;
    }
    for i in 0..one.len() {
        if one.value(i) != other.value(i) {
            return false;
        }
    }
    true
}

// Whether they agree from each state of two registers, with each vector of two columns.
fn all_agree(alloc: Global, netlist: &Netlist) -> Result<bool, AllocError> {
    let registers = netlist.design().registers().len();
    let columns = netlist.columns().len();
    let mut all = registers <= 2 && columns <= 2;
    for number in 0..81 {
        let state = row_of(alloc, registers, number % 9)?;
        let vector = row_of(alloc, columns, number / 9)?;
        all = all && agrees(alloc, netlist, &state, &vector)?;
    }
    Ok(all)
}

// The same of the netlist of a text.
fn all_agree_in(alloc: Global, net: &str) -> Result<bool, Stop> {
    let mut files = files(alloc, &[("n", net)])?;
    let netlist = read_netlist(alloc, &mut files, "n")?;
    Ok(all_agree(alloc, &netlist)?)
}

#[test]
fn settled_nets_are_the_fixed_point(rt: HostRuntime) {
    let mut netlists = 0_u64;
    for net in NETLISTS.split("%\n") {
        assert!(rt; all_agree_in(rt.alloc(), net).is_ok_and(|all| all), "{net}");
        netlists = netlists.saturating_add(1);
    }
    assert_eq!(rt; netlists, 5);
}
