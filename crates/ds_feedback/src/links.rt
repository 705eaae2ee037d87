//! Tables and registers without what they compute: the nets that each reads, and the one that it
//! drives.
ghost use Rattle.std.specs.Prelude.{◌≡◌, ◌++◌, [], map, true, IfOk, OnOk};
ghost use Rattle.ds_feedback.specs.Links.{link_of_register, link_of_table, links};

use ds_base::{NetId, OutOfMemory, Seq};
use ds_cover::Table;
use ds_design::{Design, Gate, Register};
use std::alloc::Global;

// The links of the tables, and behind them those of the registers.
pub(crate) fn links_of(alloc: Global, design: &Design) -> Result<Vec<Gate>, OutOfMemory>
    ensures ok { IfOk result (λ v. v.items ≡ links design.now) }
{
    let tables = design.tables();
    let registers = design.registers();
    let mut links: Vec<Gate> = Vec::with_capacity(alloc, tables.len() + registers.len())?;
    push_tables(alloc, &mut links, tables)?;
    push_registers(alloc, &mut links, registers)?;
    Ok(links)
}

// Adds the links of tables.
fn push_tables(alloc: Global, links: &mut Vec<Gate>, tables: &[Gate]) -> Result<(), OutOfMemory>
    ensures ok { OnOk result (links.new.items ≡ links.old.items ++ map link_of_table tables.now) }
{
    for table in tables {
        links.push(table_link(alloc, table)?)?;
    }
    Ok(())
}

// Adds the links of registers.
fn push_registers(
    alloc: Global,
    links: &mut Vec<Gate>,
    registers: &[Register],
) -> Result<(), OutOfMemory>
    ensures ok { OnOk result
        (links.new.items ≡ links.old.items ++ map link_of_register registers.now) }
{
    for register in registers {
        links.push(register_link(alloc, register)?)?;
    }
    Ok(())
}

// The link of a table.
fn table_link(alloc: Global, table: &Gate) -> Result<Gate, OutOfMemory>
    ensures ok { IfOk result (λ link. link ≡ link_of_table table.now) }
{
    let inputs = table.table.inputs().to_vec(alloc)?;
    Ok(link(alloc, Seq::of(inputs), table.output, table.line))
}

// The link of a register.
fn register_link(alloc: Global, register: &Register) -> Result<Gate, OutOfMemory>
    ensures ok { IfOk result (λ link. link ≡ link_of_register register.now) }
{
    let mut inputs: Seq<NetId> = Seq::new(alloc);
    inputs.push(register.data_net)?;
    Ok(link(alloc, inputs, register.output, register.line))
}

// A link from these nets to the output.
fn link(alloc: Global, inputs: Seq<NetId>, output: NetId, line: u64) -> Gate
    ensures value { result ≡ record {
      table = record { inputs = inputs; rows = []; on = true };
      output = output;
      line = line;
    } }
{
    Gate {
        table: Table::of(inputs, Seq::new(alloc), true),
        output,
        line,
    }
}
