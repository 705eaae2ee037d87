//! The texts of faults of a design, with the names of its nets.
ghost use Rattle.std.specs.Prelude.{◌≡◌, ◌++◌, ◌<◌, IfOk, length, map, All, codes, decimal};
ghost use Rattle.ds_netlist.specs.Named.{IsNamed};
ghost use Rattle.ds_rows.specs.Nets.{text_of_net, net_text, register_of};
ghost use Rattle.ds_stage.specs.FaultText.{driver_text, net_fault_text as net_fault_text_of};
ghost use Rattle.ds_stage.specs.FaultText.{IsNetFaultText, with_blanks};

use ds_base::{NetId, OutOfMemory, RegId};
use ds_design::{Design, Net};
use ds_netlist::{Driver, NetFault};
use itoa::Buffer;
use std::alloc::Global;

/// The text of a fault of a design; none of want of memory.
pub fn net_fault_text(
    alloc: Global,
    design: &Design,
    fault: &NetFault,
) -> Result<Vec<u8>, OutOfMemory>
    requires { IsNamed design.now fault.now }
    ensures { IfOk result (λ text. IsNetFaultText design.now fault.now text.items) }
{
    match fault {
        NetFault::SeveralClocks(one, other) => {
            let text = Vec::from_slice(alloc, b"several clocks: ")?;
            and_net(with_net(text, design, *one)?, design, *other)
        }
        NetFault::MixedEdges(one, other) => {
            let text = Vec::from_slice(alloc, b"mixed edges: ")?;
            and_register(with_register(text, design, *one)?, design, *other)
        }
        NetFault::DrivenClock(clock) => clock_is(alloc, design, *clock, b" is driven"),
        NetFault::ClockAsData(clock) => clock_is(alloc, design, *clock, b" used as data"),
        NetFault::MultiplyDriven(net, one, other) => {
            driven_twice(alloc, design, *net, *one, *other)
        }
        NetFault::Undriven(net) => {
            with_net(Vec::from_slice(alloc, b"undriven net ")?, design, *net)
        }
        NetFault::CombinationalCycle(nets) => {
            with_nets(
                Vec::from_slice(alloc, b"combinational cycle:")?,
                design,
                nets.as_slice(),
            )
        }
        NetFault::Memory => Err(OutOfMemory),
    }
}

// A clock, and what is wrong with it.
fn clock_is(
    alloc: Global,
    design: &Design,
    clock: NetId,
    wrong: &[u8],
) -> Result<Vec<u8>, OutOfMemory>
    requires { clock < length design.now.nets }
    ensures { IfOk result (λ text. text.items
        ≡ codes "clock " ++ text_of_net design.now clock ++ wrong.now) }
{
    let mut text = with_net(Vec::from_slice(alloc, b"clock ")?, design, clock)?;
    text.extend_from_slice(wrong)?;
    Ok(text)
}

// A net and its first two drivers.
fn driven_twice(
    alloc: Global,
    design: &Design,
    net: NetId,
    one: Driver,
    other: Driver,
) -> Result<Vec<u8>, OutOfMemory>
    requires { net < length design.now.nets }
    ensures { IfOk result (λ text. text.items ≡ codes "net " ++ text_of_net design.now net
        ++ codes " driven twice: " ++ driver_text one ++ codes " and " ++ driver_text other) }
{
    let mut text = with_net(Vec::from_slice(alloc, b"net ")?, design, net)?;
    text.extend_from_slice(b" driven twice: ")?;
    let mut text = with_driver(text, one)?;
    text.extend_from_slice(b" and ")?;
    with_driver(text, other)
}

// A text with the other of two nets.
fn and_net(text: Vec<u8>, design: &Design, net: NetId) -> Result<Vec<u8>, OutOfMemory>
    requires { net < length design.now.nets }
    ensures { IfOk result (λ all. all.items
        ≡ text.items ++ codes " and " ++ text_of_net design.now net) }
{
    let mut text = text;
    text.extend_from_slice(b" and ")?;
    with_net(text, design, net)
}

// A text with the other of two registers.
fn and_register(text: Vec<u8>, design: &Design, register: RegId) -> Result<Vec<u8>, OutOfMemory>
    requires { register < length design.now.registers }
    ensures { IfOk result (λ all. all.items
        ≡ text.items ++ codes " and " ++ register_of design.now register) }
{
    let mut text = text;
    text.extend_from_slice(b" and ")?;
    with_register(text, design, register)
}

// A text with a register, named by the net that it drives.
fn with_register(text: Vec<u8>, design: &Design, register: RegId) -> Result<Vec<u8>, OutOfMemory>
    requires { register < length design.now.registers }
    ensures { IfOk result (λ all. all.items ≡ text.items ++ register_of design.now register) }
{
    let output = design.registers()[register.index()].output;
    with_net(text, design, output)
}

// A text with nets, each with a blank before it.
fn with_nets(text: Vec<u8>, design: &Design, nets: &[NetId]) -> Result<Vec<u8>, OutOfMemory>
    requires { All (λ net. net < length design.now.nets) nets.now }
    ensures { IfOk result (λ all. all.items
        ≡ text.items ++ with_blanks (map (text_of_net design.now) nets.now)) }
{
    let mut text = text;
    for net in nets {
        text.extend_from_slice(b" ")?;
        text = with_net(text, design, *net)?;
    }
    Ok(text)
}

// A text with a net.
fn with_net(text: Vec<u8>, design: &Design, net: NetId) -> Result<Vec<u8>, OutOfMemory>
    requires { net < length design.now.nets }
    ensures { IfOk result (λ all. all.items ≡ text.items ++ text_of_net design.now net) }
{
    with_name(text, &design.nets()[net.index()])
}

// A text with the name of a net, behind the number of its copy where it is not the main model.
fn with_name(text: Vec<u8>, net: &Net) -> Result<Vec<u8>, OutOfMemory>
    ensures { IfOk result (λ all. all.items ≡ text.items ++ net_text net.now) }
{
    let mut text = text;
    if net.copy != 0 {
        text = with_number(text, u64::from(net.copy))?;
        text.extend_from_slice(b"/")?;
    }
    text.extend_from_slice(net.name.as_slice())?;
    Ok(text)
}

// A text with what drives a net.
fn with_driver(text: Vec<u8>, driver: Driver) -> Result<Vec<u8>, OutOfMemory>
    ensures { IfOk result (λ all. all.items ≡ text.items ++ driver_text driver) }
{
    let mut text = text;
    match driver {
        Driver::Input => {
            text.extend_from_slice(b"input")?;
            Ok(text)
        }
        Driver::Table(line) => {
            text.extend_from_slice(b"table at ")?;
            with_number(text, line)
        }
        Driver::Latch(line) => {
            text.extend_from_slice(b"latch at ")?;
            with_number(text, line)
        }
    }
}

// A text with a number in decimal.
fn with_number(text: Vec<u8>, number: u64) -> Result<Vec<u8>, OutOfMemory>
    ensures { IfOk result (λ all. all.items ≡ text.items ++ decimal number) }
{
    let mut buffer = Buffer::new();
    let mut text = text;
    text.extend_from_slice(buffer.format(number).as_bytes())?;
    Ok(text)
}
