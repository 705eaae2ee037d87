//! The models of a text, by name, with their interfaces.
ghost use Rattle.std.specs.Prelude.{◌≡◌, ◌≢◌, ◌<◌, ◌++◌, ◌∷◌, None, Some, [], length, option_map};
ghost use Rattle.std.specs.Prelude.{AllPairs, MatchOption, IfOk, OnOk};
ghost use Rattle.ds_lines.specs.Names.{with_name};
ghost use Rattle.ds_flat.specs.Copies.{model_named, unknown_formal as unknown_formal_in};
ghost use Rattle.ds_flat.specs.Copies.{ports_in as ports_in_part};
ghost use Rattle.ds_flat.specs.Interface.{with_ports_of, with_names as names_with};
ghost use Rattle.ds_flat.specs.Interface.{ports_by, Finds};

use crate::bare::Bare;
use crate::lent::Lent;
use ds_base::OutOfMemory;
use ds_design::{Pair, Part, Word, Words};
use ds_lines::Names;
use std::alloc::Global;
use std::marker::Model;

/// Models, their names, and the names of each one's interface.
pub struct Library<'b, 'm> {
    models: &'b [Bare<'m>],
    names: Names<'m>,
    ports: Vec<Names<'m>>,
}

impl Drop for Library<'_, '_> {
    fn drop(self) {
        let Library {
            models: _,
            names: _,
            ports: _,
        } = self;
    }
}

impl<'b, 'm> Model for Library<'b, 'm> {
    ghost use Rattle.std.specs.Prelude.{List};
    ghost use Rattle.ds_design.specs.declared.blif.BlifModel.{BlifModel};
    ghost use Rattle.ds_flat.specs.Interface.{IsLibrary};

    ghost Value = { List BlifModel };

    ghost view = { λ l. l.models.now };

    ghost invariant = { λ l. IsLibrary l.models.now l.names l.ports.items };
}

/// A model, its place, and the names of its interface, each once.
#[derive(Clone, Copy)]
pub struct FoundModel<'l, 'b, 'm> {
    pub place: usize,
    pub model: &'b Bare<'m>,
    pub ports: &'l Names<'m>,
}

impl<'b, 'm> Library<'b, 'm> {
    /// The models of a text, whose names differ.
    pub fn of(alloc: Global, models: &'b [Bare<'m>]) -> Result<Self, OutOfMemory>
        requires { AllPairs (λ one other. one.name ≢ other.name) models.now }
        ensures { IfOk result (λ l. l ≡ models.entry.now) }
    {
        let mut names: Names<'m> = Names::new(alloc);
        let mut ports = Vec::with_capacity(alloc, models.len())?;
        for model in models {
            add_model(alloc, &mut names, &mut ports, model)?;
        }
        Ok(Library {
            models,
            names,
            ports,
        })
    }

    /// How many models there are.
    pub fn len(&self) -> usize
        ensures { result ≡ length self.now }
    {
        self.models.len()
    }

    /// The model of a name.
    pub fn find(&self, name: &[u8]) -> Option<FoundModel<'_, 'b, 'm>>
        ensures { MatchOption result (model_named self.now name.now ≡ None)
            (λ f. Finds self.now name.now f.place f.model.now f.ports.now) }
    {
        let models = self.models;
        let place = self.names.place(name);
        if place < models.len() {
            Some(FoundModel {
                place,
                model: &models[place],
                ports: &self.ports[place],
            })
        } else {
            None
        }
    }
}

/// The first formal that is not among the names of an interface.
pub fn unknown_formal<'p>(ports: &Names<'_>, pairs: &'p [Pair<'p>]) -> Option<&'p Word<'p>>
    ensures { option_map (λ n. n.now) result ≡ unknown_formal_in ports.now pairs.now }
{
    for pair in pairs {
        if ports.place(pair.formal.get()) == ports.len() {
            return Some(&pair.formal);
        }
    }
    None
}

// With the name of a model, and the names of its interface.
fn add_model<'m>(
    alloc: Global,
    names: &mut Names<'m>,
    ports: &mut Vec<Names<'m>>,
    model: &Bare<'m>,
) -> Result<(), OutOfMemory>
    ensures names { OnOk result (names.new ≡ with_name names.old model.now.name) }
    ensures ports { OnOk result (ports.new.items ≡ ports.old.items ++ ports_by model.now ∷ []) }
{
    names.insert(model.name())?;
    ports.push(ports_in(alloc, model.commands())?)?;
    Ok(())
}

// The names of an interface, each once.
fn ports_in<'m>(alloc: Global, commands: &[Lent<'m>]) -> Result<Names<'m>, OutOfMemory>
    ensures { IfOk result (λ n. n ≡ with_ports_of [] commands.entry.now) }
{
    let mut ports: Names<'m> = Names::new(alloc);
    for command in commands {
        add_ports(&mut ports, &command.get().part)?;
    }
    Ok(ports)
}

fn add_ports<'m>(ports: &mut Names<'m>, part: &'m Part<'m>) -> Result<(), OutOfMemory>
    ensures { OnOk result (ports.new ≡ names_with ports.old (ports_in_part part.now)) }
{
    match part {
        Part::Inputs(names) => add_names(ports, names),
        Part::Outputs(names) => add_names(ports, names),
        Part::Clock(names) => add_names(ports, names),
        Part::Table(_) => Ok(()),
        Part::Latch(_) => Ok(()),
        Part::Subckt(_) => Ok(()),
    }
}

fn add_names<'m>(ports: &mut Names<'m>, names: &Words<'m>) -> Result<(), OutOfMemory>
    ensures { OnOk result (ports.new ≡ names_with ports.old names.now) }
{
    for k in 0..names.len() {
        ports.insert(names.word(k))?;
    }
    Ok(())
}
