//! A flat design that is being made.
ghost use Rattle.std.specs.Prelude.{◌≡◌, ◌≢◌, OnOk, IfOk, IfErr, AllPairs};
ghost use Rattle.ds_design.specs.Circuit.{Circuit};
ghost use Rattle.ds_design.specs.Source.{IsPart, IsTableText};
ghost use Rattle.ds_flat.specs.Net.{numbered_names, net_of_name, number_of_net, with_net};
ghost use Rattle.ds_flat.specs.Command.{with_inputs, with_outputs, with_clocks, with_part};
ghost use Rattle.ds_flat.specs.Command.{with_table, with_register, latch_names};
ghost use Rattle.ds_flat.specs.Copies.{empty_design, passed_limit as limit_of};
ghost use Rattle.ds_flat.specs.Keys.{IsNoNumber};

use crate::fault::NoNumber;
use crate::head::Head;
use crate::nets::NetList;
use crate::numbers::{number, numbers};
use crate::ports::Ports;
use crate::scope::Scope;
use ds_base::{Limit, Name, NetId, OutOfMemory, Seq};
use ds_cover::Table;
use ds_design::{Gate, LatchText, Part, Register, TableText, Word, Words};
use std::alloc::Global;
use std::marker::Model;

/// The main model's name, the nets, the interface, the tables and the registers so far.
pub struct DesignDraft<'m> {
    pub name: &'m [u8],
    pub nets: NetList<'m>,
    pub inputs: Ports,
    pub outputs: Ports,
    pub clocks: Ports,
    pub tables: Vec<Gate>,
    pub registers: Vec<Register>,
}

impl Drop for DesignDraft<'_> {
    fn drop(self) {
        let DesignDraft {
            tables: _,
            registers: _,
            name: _,
            nets: _,
            inputs: _,
            outputs: _,
            clocks: _,
        } = self;
    }
}

impl<'m> Model for DesignDraft<'m> {
    ghost use Rattle.ds_design.specs.Circuit.{Circuit};

    ghost Value = { Circuit };

    ghost view = { λ d. record {
      name = d.name.now;
      nets = d.nets;
      inputs = d.inputs;
      outputs = d.outputs;
      clocks = d.clocks;
      tables = d.tables.items;
      registers = d.registers.items;
    } };
}

impl<'m> DesignDraft<'m> {
    /// A design without nets.
    pub fn new(alloc: Global, name: &'m [u8]) -> Self
        ensures { result ≡ empty_design name.entry.now }
    {
        DesignDraft {
            name,
            nets: NetList::new(alloc),
            inputs: Ports::new(alloc),
            outputs: Ports::new(alloc),
            clocks: Ports::new(alloc),
            tables: Vec::new(alloc),
            registers: Vec::new(alloc),
        }
    }

    /// The name, the nets and the interface.
    pub fn head(&self, alloc: Global) -> Result<Head, OutOfMemory>
        ensures name { IfOk result (λ h. h.name ≡ self.now.name) }
        ensures nets { IfOk result (λ h. h.nets ≡ self.now.nets) }
        ensures inputs { IfOk result (λ h. h.inputs ≡ self.now.inputs) }
        ensures outputs { IfOk result (λ h. h.outputs ≡ self.now.outputs) }
        ensures clocks { IfOk result (λ h. h.clocks ≡ self.now.clocks) }
        ensures once { IfOk result (λ h. AllPairs (λ a b. a ≢ b) h.outputs) }
    {
        let name = self.name.to_vec(alloc)?;
        let nets = self.nets.to_nets(alloc)?;
        let inputs = self.inputs.to_ids(alloc)?;
        let outputs = self.outputs.to_ids(alloc)?;
        let clocks = self.clocks.to_ids(alloc)?;
        Ok(Head {
            name: Seq::of(name),
            nets,
            inputs,
            outputs,
            clocks,
        })
    }

    /// The tables and the registers.
    pub fn into_parts(self) -> (Vec<Gate>, Vec<Register>)
        ensures tables { result.0.items ≡ self.entry.tables }
        ensures registers { result.1.items ≡ self.entry.registers }
    {
        let DesignDraft {
            name: _,
            nets: _,
            inputs: _,
            outputs: _,
            clocks: _,
            tables,
            registers,
        } = self;
        (tables, registers)
    }

    /// The first limit that it passes.
    pub fn passed_limit(&self) -> Option<Limit>
        ensures { result ≡ limit_of self.now }
    {
        if self.nets.len() as u64 > Limit::Nets.most() {
            Some(Limit::Nets)
        } else if self.tables.len() as u64 > Limit::Tables.most() {
            Some(Limit::Tables)
        } else if self.registers.len() as u64 > Limit::Registers.most() {
            Some(Limit::Registers)
        } else {
            None
        }
    }

    /// Adds what a command says. After a refusal it holds a part of that.
    pub fn add(
        &mut self,
        alloc: Global,
        scope: &Scope<'m>,
        line: u64,
        part: &'m Part<'m>,
    ) -> Result<(), NoNumber>
        requires { IsPart part.now }
        ensures ok { OnOk result (self.new ≡ with_part scope.now line part.now self.old) }
        ensures fault { IfErr result
            (λ e. IsNoNumber e (with_part scope.now line part.now self.old).nets) }
    {
        match part {
            Part::Inputs(names) => self.add_inputs(alloc, scope, names),
            Part::Outputs(names) => self.add_outputs(alloc, scope, names),
            Part::Clock(names) => self.add_clocks(alloc, scope, names),
            Part::Table(text) => self.add_table(alloc, scope, line, text),
            Part::Latch(text) => self.add_register(scope, line, text),
            Part::Subckt(_) => Ok(()),
        }
    }

    fn add_inputs(
        &mut self,
        alloc: Global,
        scope: &Scope<'m>,
        names: &Words<'m>,
    ) -> Result<(), NoNumber>
        ensures ok { OnOk result (self.new ≡ with_inputs scope.now.copy
            (numbered_names scope.now self.old.nets names.now) self.old) }
        ensures fault { IfErr result
            (λ e. IsNoNumber e (numbered_names scope.now self.old.nets names.now).nets) }
    {
        match numbers(alloc, &mut self.nets, scope, names) {
            Ok(all) => {
                self.inputs.add(scope.copy(), all.as_slice())?;
                Ok(())
            }
            Err(stop) => Err(stop),
        }
    }

    fn add_outputs(
        &mut self,
        alloc: Global,
        scope: &Scope<'m>,
        names: &Words<'m>,
    ) -> Result<(), NoNumber>
        ensures ok { OnOk result (self.new ≡ with_outputs scope.now.copy
            (numbered_names scope.now self.old.nets names.now) self.old) }
        ensures fault { IfErr result
            (λ e. IsNoNumber e (numbered_names scope.now self.old.nets names.now).nets) }
    {
        match numbers(alloc, &mut self.nets, scope, names) {
            Ok(all) => {
                self.outputs.add(scope.copy(), all.as_slice())?;
                Ok(())
            }
            Err(stop) => Err(stop),
        }
    }

    fn add_clocks(
        &mut self,
        alloc: Global,
        scope: &Scope<'m>,
        names: &Words<'m>,
    ) -> Result<(), NoNumber>
        ensures ok { OnOk result (self.new ≡ with_clocks scope.now.copy
            (numbered_names scope.now self.old.nets names.now) self.old) }
        ensures fault { IfErr result
            (λ e. IsNoNumber e (numbered_names scope.now self.old.nets names.now).nets) }
    {
        match numbers(alloc, &mut self.nets, scope, names) {
            Ok(all) => {
                self.clocks.add(scope.copy(), all.as_slice())?;
                Ok(())
            }
            Err(stop) => Err(stop),
        }
    }

    fn add_table(
        &mut self,
        alloc: Global,
        scope: &Scope<'m>,
        line: u64,
        text: &'m TableText<'m>,
    ) -> Result<(), NoNumber>
        requires { IsTableText text.now }
        ensures ok { OnOk result (self.new ≡ with_table (net_of_name scope.now text.now.output) line
            text.now (numbered_names scope.now self.old.nets text.now.inputs) self.old) }
        ensures fault { IfErr result (λ e. IsNoNumber e (with_net
            (numbered_names scope.now self.old.nets text.now.inputs).nets
            (net_of_name scope.now text.now.output))) }
    {
        match numbers(alloc, &mut self.nets, scope, &text.inputs) {
            Ok(inputs) => match number(&mut self.nets, scope, &text.output) {
                Ok(output) => {
                    let rows = rows(alloc, text.rows.as_slice())?;
                    let table = Table::of(Seq::of(inputs), rows, text.on);
                    self.tables.push(Gate {
                        table,
                        output,
                        line,
                    })?;
                    Ok(())
                }
                Err(stop) => Err(stop),
            },
            Err(stop) => Err(stop),
        }
    }

    fn add_register(
        &mut self,
        scope: &Scope<'m>,
        line: u64,
        text: &'m LatchText<'m>,
    ) -> Result<(), NoNumber>
        ensures ok { OnOk result (self.new ≡ with_register line text.now
            (latch_names scope.now self.old.nets text.now) self.old) }
        ensures fault { IfErr result
            (λ e. IsNoNumber e (latch_names scope.now self.old.nets text.now).nets) }
    {
        match latch_numbers(&mut self.nets, scope, text) {
            Ok((data_net, output, control)) => {
                self.registers.push(Register {
                    data_net,
                    output,
                    edge: text.edge,
                    control,
                    initial: text.initial,
                    line,
                })?;
                Ok(())
            }
            Err(stop) => Err(stop),
        }
    }
}

// The numbers of the nets of a latch: data net, output, control.
fn latch_numbers<'m>(
    nets: &mut NetList<'m>,
    scope: &Scope<'m>,
    text: &'m LatchText<'m>,
) -> Result<(NetId, NetId, Option<NetId>), NoNumber>
    ensures ok { IfOk result (λ n. record {
      data_net = n.0;
      output = n.1;
      control = n.2;
      nets = nets.new;
    } ≡ latch_names scope.now nets.old text.now) }
    ensures fault { IfErr result (λ e. IsNoNumber e
        (latch_names scope.now nets.old text.now).nets) }
{
    let data_net = match number(nets, scope, &text.data_net) {
        Ok(found) => found,
        Err(stop) => return Err(stop),
    };
    let output = match number(nets, scope, &text.output) {
        Ok(found) => found,
        Err(stop) => return Err(stop),
    };
    match &text.control {
        None => Ok((data_net, output, None)),
        Some(name) => match number(nets, scope, name) {
            Ok(control) => Ok((data_net, output, Some(control))),
            Err(stop) => Err(stop),
        },
    }
}

// Rows of their own.
fn rows(alloc: Global, rows: &[Word<'_>]) -> Result<Seq<Name>, OutOfMemory>
    ensures { IfOk result (λ r. r ≡ rows.now) }
{
    let mut all = Vec::with_capacity(alloc, rows.len())?;
    for row in rows {
        let bytes = row.get().to_vec(alloc)?;
        all.push(Seq::of(bytes))?;
    }
    Ok(Seq::of(all))
}
