//! A flat design: nets, tables and registers with the lines that they stand on, before it is
//! checked.
ghost use Rattle.std.specs.Prelude.{◌≡◌, ◌≢◌, ◌<◌, ◌≤◌, ◌^◌, ℕ, All, AllPairs, length, List};
ghost use Rattle.ds_design.specs.Circuit.{Circuit, initial_value};
ghost use Rattle.ds_design.specs.InRange.{IsInRange};

use ds_base::{Name, NetId, Seq, Value};
use ds_cover::Table;
use std::marker::Model;

/// A net: the copy of a model that it stands in, and its name there.
#[derive(Drop)]
pub struct Net {
    pub copy: u32,
    pub name: Name,
}

/// A table of the design, the net that it drives, and its line in the file.
#[derive(Drop)]
pub struct Gate {
    pub table: Table,
    pub output: NetId,
    pub line: u64,
}

/// Which edge of the clock a register takes.
#[derive(Clone, Copy, Debug, PartialEq, Eq)]
pub enum Edge {
    Rising,
    Falling,
}

/// A register of the design.
#[derive(Drop)]
pub struct Register {
    pub data_net: NetId,
    pub output: NetId,
    pub edge: Option<Edge>,
    pub control: Option<NetId>,
    pub initial: u8,
    pub line: u64,
}

impl Register {
    /// The value that it starts at.
    pub fn start(&self) -> Value
        ensures { result ≡ initial_value self.now.initial }
    {
        if self.initial == 1 {
            Value::One
        } else if self.initial == 3 {
            Value::Unknown
        } else {
            Value::Zero
        }
    }
}

/// A flat design.
pub struct Design {
    name: Name,
    nets: Seq<Net>,
    inputs: Seq<NetId>,
    outputs: Seq<NetId>,
    clocks: Seq<NetId>,
    tables: Seq<Gate>,
    registers: Seq<Register>,
}

impl Drop for Design {
    fn drop(self) {
        let Design {
            name: _,
            nets: _,
            inputs: _,
            outputs: _,
            clocks: _,
            tables: _,
            registers: _,
        } = self;
    }
}

impl Model for Design {
    ghost use Rattle.std.specs.Prelude.{◌≢◌, AllPairs};
    ghost use Rattle.ds_design.specs.Circuit.{Circuit};
    ghost use Rattle.ds_design.specs.InRange.{IsInRange};

    ghost Value = { Circuit };

    ghost view = { λ d. record {
      name = d.name;
      nets = d.nets;
      inputs = d.inputs;
      outputs = d.outputs;
      clocks = d.clocks;
      tables = d.tables;
      registers = d.registers;
    } };

    ghost invariant = { λ d. IsInRange
        (record {
          name = d.name;
          nets = d.nets;
          inputs = d.inputs;
          outputs = d.outputs;
          clocks = d.clocks;
          tables = d.tables;
          registers = d.registers;
        }) × AllPairs (λ a b. a ≢ b) d.outputs };
}

impl Design {
    /// Of its parts, whose numbers name what is there and no output of which stands twice.
    pub fn of(
        name: Name,
        nets: Seq<Net>,
        inputs: Seq<NetId>,
        outputs: Seq<NetId>,
        clocks: Seq<NetId>,
        tables: Seq<Gate>,
        registers: Seq<Register>,
    ) -> Self
        requires in_range { IsInRange (record {
          name = name;
          nets = nets;
          inputs = inputs;
          outputs = outputs;
          clocks = clocks;
          tables = tables;
          registers = registers;
        }) }
        requires once { AllPairs (λ a b. a ≢ b) outputs }
        ensures { result ≡ record {
          name = name;
          nets = nets;
          inputs = inputs;
          outputs = outputs;
          clocks = clocks;
          tables = tables;
          registers = registers;
        } }
    {
        Design {
            name,
            nets,
            inputs,
            outputs,
            clocks,
            tables,
            registers,
        }
    }

    /// The name of the main model.
    pub fn name(&self) -> &[u8]
        ensures { result.now ≡ self.now.name }
    {
        self.name.as_slice()
    }

    /// The nets, by their numbers.
    pub fn nets(&self) -> &[Net]
        ensures { result.now ≡ self.now.nets }
    {
        self.nets.as_slice()
    }

    /// The inputs, in the order of the file.
    pub fn inputs(&self) -> &[NetId]
        ensures inputs { result.now ≡ self.now.inputs }
        ensures in_range { IsInRange self.now }
    {
        self.inputs.as_slice()
    }

    /// The nets of the `.clock` lines, in the order of the file.
    pub fn clocks(&self) -> &[NetId]
        ensures clocks { result.now ≡ self.now.clocks }
        ensures in_range { IsInRange self.now }
    {
        self.clocks.as_slice()
    }

    /// The tables, in the order of the file.
    pub fn tables(&self) -> &[Gate]
        ensures tables { result.now ≡ self.now.tables }
        ensures in_range { IsInRange self.now }
    {
        self.tables.as_slice()
    }

    /// The registers, in the order of the file.
    pub fn registers(&self) -> &[Register]
        ensures registers { result.now ≡ self.now.registers }
        ensures in_range { IsInRange self.now }
    {
        self.registers.as_slice()
    }

    /// The outputs, in the order of the file.
    pub fn outputs(&self) -> &[NetId]
        ensures outputs { result.now ≡ self.now.outputs }
        ensures in_range { IsInRange self.now }
        ensures once { AllPairs (λ a b. a ≢ b) self.now.outputs }
    {
        self.outputs.as_slice()
    }
}
