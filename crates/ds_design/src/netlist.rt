//! A design that is accepted, ready to be run.
ghost use Rattle.std.specs.Prelude.{◌≡◌, ◌<◌, length, is_some, IsTrue, ◌↔◌};
ghost use Rattle.std.specs.List.{list_any};
ghost use Rattle.ds_base.specs.Greatest.{greatest};
ghost use Rattle.ds_design.specs.Circuit.{columns, control_nets};
ghost use Rattle.ds_design.specs.Accepted.{IsAccepted};
ghost use Rattle.ds_design.specs.Banked.{IsBankOf};
ghost use Rattle.ds_design.specs.InRange.{IsInRange};
ghost use Rattle.ds_design.specs.Levels.{AreLevels, IsDepth, IsTableOrder, net_count};

use crate::{Design, Register};
use ds_base::{NetId, Seq};
use ds_cover::{Bank, Series};
use std::marker::Model;

/// A design that is accepted, with its columns, the level of each net, and its tables packed, by
/// level. Contracts see the design.
pub struct Netlist {
    design: Design,
    column_nets: Seq<NetId>,
    net_levels: Seq<u64>,
    series: Series,
}

impl Drop for Netlist {
    fn drop(self) {
        let Netlist {
            design: _,
            column_nets: _,
            net_levels: _,
            series: _,
        } = self;
    }
}

impl Model for Netlist {
    ghost use Rattle.std.specs.Prelude.{◌≡◌};
    ghost use Rattle.ds_design.specs.Circuit.{Circuit, columns};
    ghost use Rattle.ds_design.specs.Accepted.{IsAccepted};
    ghost use Rattle.ds_design.specs.Banked.{IsBankOf};
    ghost use Rattle.ds_design.specs.InRange.{IsInRange};
    ghost use Rattle.ds_design.specs.Levels.{AreLevels, IsTableOrder};

    ghost Value = { Circuit };

    ghost view = { λ n. n.design };

    ghost invariant = { λ n. IsInRange n.design × IsAccepted n.design
        × (n.column_nets ≡ columns n.design) × AreLevels n.design n.net_levels
        × IsTableOrder n.design n.series.order × IsBankOf n.design.tables n.series.tables };
}

impl Netlist {
    /// Of a design that is accepted.
    pub fn of(design: Design, column_nets: Seq<NetId>, net_levels: Seq<u64>, series: Series) -> Self
        requires in_range { IsInRange design }
        requires accepted { IsAccepted design }
        requires columns { column_nets ≡ columns design }
        requires levels { AreLevels design net_levels }
        requires order { IsTableOrder design series.order }
        requires bank { IsBankOf design.tables series.tables }
        ensures value { result ≡ design }
    {
        Netlist {
            design,
            column_nets,
            net_levels,
            series,
        }
    }

    /// The design that was accepted.
    pub fn design(&self) -> &Design
        ensures design { result.now ≡ self.now }
        ensures in_range { IsInRange self.now }
        ensures accepted { IsAccepted self.now }
    {
        &self.design
    }

    /// The nets that the vectors give, in the order of the inputs.
    pub fn columns(&self) -> &[NetId]
        ensures { result.now ≡ columns self.now }
    {
        self.column_nets.as_slice()
    }

    /// The places of the tables by the level of what they drive, so each after those that drive
    /// its inputs.
    pub fn order(&self) -> &[u32]
        ensures { IsTableOrder self.now result.now }
    {
        self.series.order()
    }

    /// The tables packed, by their places in the file.
    pub fn bank(&self) -> &Bank
        ensures { IsBankOf self.now.tables result.now }
    {
        self.series.bank()
    }

    /// The tables packed, in the order in which they are set.
    pub fn series(&self) -> &Series
        ensures order { IsTableOrder self.now result.now.order }
        ensures bank { IsBankOf self.now.tables result.now.tables }
    {
        &self.series
    }

    /// The level of each net: 0 where no table drives it, else one more than the greatest level
    /// of the table's inputs.
    pub fn net_levels(&self) -> &[u64]
        ensures value { AreLevels self.now result.now }
    {
        self.net_levels.as_slice()
    }

    /// The greatest level of a net, 0 where there are no nets.
    pub fn levels(&self) -> u64
        ensures value { IsDepth self.now result }
    {
        greatest_of(self.net_levels())
    }

    /// How many nets there are beside the clock.
    pub fn nets(&self) -> u64
        ensures value { result ≡ net_count self.now }
    {
        let design = self.design();
        let nets = design.nets().len() as u64;
        if has_clock(design) { nets - 1 } else { nets }
    }

    /// How many tables there are.
    pub fn tables(&self) -> u64
        ensures value { result ≡ length self.now.tables }
    {
        self.design.tables().len() as u64
    }

    /// How many registers there are.
    pub fn registers(&self) -> u64
        ensures value { result ≡ length self.now.registers }
    {
        self.design.registers().len() as u64
    }
}

// The greatest of the numbers, 0 where there are none.
fn greatest_of(numbers: &[u64]) -> u64
    ensures value { result ≡ greatest numbers.now }
{
    let mut most = 0;
    for i in (0..numbers.len()).rev() {
        most = numbers[i].max(most);
    }
    most
}

// Whether some net is a clock.
fn has_clock(design: &Design) -> bool
    ensures value { IsTrue result ↔ (0 < length (control_nets design.now)) }
{
    !design.clocks().is_empty() || has_control(design.registers())
}

// Whether some register names its control.
fn has_control(registers: &[Register]) -> bool
    ensures value { result ≡ list_any (λ r. is_some r.control) registers.now }
{
    registers.iter().any(|r| r.control.is_some())
}
