//! The faults of the clock and of its edges.
ghost use Rattle.std.specs.Prelude.{◌≡◌, ◌<◌, ◌^◌, ◌==◌, length, not, IfSome};
ghost use Rattle.std.specs.List.{find, position};
ghost use Rattle.ds_netlist.specs.Fault.{is_falling, is_in, is_rising, mixed_edges, several_clocks};
ghost use Rattle.ds_netlist.specs.Steps.{clock_among, first_listed};

use crate::NetFault;
use ds_base::{NetId, RegId};
use ds_design::{Edge, Register};

// The first of the names.
pub(crate) fn first_name(names: &[NetId]) -> Option<NetId>
    ensures value { result ≡ first_listed names.now }
{
    names.first().copied()
}

// The first name and the first other one.
pub(crate) fn two_clocks(names: &[NetId]) -> Option<NetFault>
    ensures value { result ≡ several_clocks names.now }
{
    let (first, others) = names.split_first()?;
    match other_name(others, *first) {
        Some(other) => Some(NetFault::SeveralClocks(*first, other)),
        None => None,
    }
}

// The first name that is another one.
fn other_name(names: &[NetId], first: NetId) -> Option<NetId>
    ensures value { result ≡ find (λ name. not (name == first)) names.now }
{
    names.iter().copied().find(|name| *name != first)
}

// The clock, where it stands in the list.
pub(crate) fn clock_in(nets: &[NetId], clock: Option<NetId>) -> Option<NetId>
    ensures value { result ≡ clock_among nets.now clock }
{
    match clock {
        Some(clock) if stands_in(nets, clock) => Some(clock),
        _ => None,
    }
}

// Whether a net stands in the list.
fn stands_in(nets: &[NetId], net: NetId) -> bool
    ensures value { result ≡ is_in nets.now net }
{
    nets.iter().any(|other| *other == net)
}

// The first register with a rising edge and the first with a falling one.
pub(crate) fn two_edges(registers: &[Register]) -> Option<NetFault>
    requires few { length registers.now < 2 ^ 32 }
    ensures value { result ≡ mixed_edges registers.now }
{
    match (first_rising(registers), first_falling(registers)) {
        (Some(rising), Some(falling)) => Some(NetFault::MixedEdges(
            RegId::new(rising as u32),
            RegId::new(falling as u32),
        )),
        _ => None,
    }
}

// The place of the first register with a rising edge.
fn first_rising(registers: &[Register]) -> Option<usize>
    ensures value { result ≡ position (λ r. is_rising r.edge) registers.now }
    ensures inside { IfSome result (λ k. k < length registers.now) }
{
    registers.iter().position(|r| has_rising(r.edge))
}

// The place of the first register with a falling edge.
fn first_falling(registers: &[Register]) -> Option<usize>
    ensures value { result ≡ position (λ r. is_falling r.edge) registers.now }
    ensures inside { IfSome result (λ k. k < length registers.now) }
{
    registers.iter().position(|r| has_falling(r.edge))
}

// Whether a register takes the rising edge.
fn has_rising(edge: Option<Edge>) -> bool
    ensures value { result ≡ is_rising edge }
{
    match edge {
        Some(Edge::Rising) => true,
        Some(Edge::Falling) | None => false,
    }
}

// Whether a register takes the falling edge.
fn has_falling(edge: Option<Edge>) -> bool
    ensures value { result ≡ is_falling edge }
{
    match edge {
        Some(Edge::Falling) => true,
        Some(Edge::Rising) | None => false,
    }
}
