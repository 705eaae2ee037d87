//! The nets of one kind of the main model's interface.
ghost use Rattle.std.specs.Prelude.{◌≡◌, ◌≢◌, [], OnOk, IfOk, AllPairs};
ghost use Rattle.ds_flat.specs.Command.{with_known_number, with_numbers, with_ports};

use ds_base::{NetId, OutOfMemory, Seq};
use indexmap::IndexSet;
use std::alloc::Global;
use std::marker::Model;

/// Numbers of nets, each once, in the order of their first appearance.
pub struct Ports {
    numbers: IndexSet<u32>,
}

impl Drop for Ports {
    fn drop(self) {
        let Ports { numbers: _ } = self;
    }
}

impl Model for Ports {
    ghost use Rattle.std.specs.Prelude.{List, ℕ};

    ghost Value = { List ℕ };

    ghost view = { λ p. p.numbers.keys };
}

impl Ports {
    /// Without nets.
    pub fn new(alloc: Global) -> Self
        ensures { result ≡ [] }
    {
        Ports {
            numbers: IndexSet::new(alloc),
        }
    }

    /// Adds the nets of a copy's interface, which count for copy 0 alone.
    pub fn add(&mut self, copy: u32, numbers: &[NetId]) -> Result<(), OutOfMemory>
        ensures { OnOk result (self.new ≡ with_ports copy self.old numbers.now) }
    {
        if copy == 0 {
            add_all(self, numbers)?;
        }
        Ok(())
    }

    fn insert(&mut self, number: NetId) -> Result<(), OutOfMemory>
        ensures { OnOk result (self.new ≡ with_known_number self.old number) }
    {
        self.numbers.insert(number.number())?;
        Ok(())
    }

    /// The numbers.
    pub fn to_ids(&self, alloc: Global) -> Result<Seq<NetId>, OutOfMemory>
        ensures ids { IfOk result (λ ids. ids ≡ self.now) }
        ensures once { IfOk result (λ ids. AllPairs (λ a b. a ≢ b) ids) }
    {
        let mut ids = Vec::with_capacity(alloc, self.numbers.len())?;
        for number in self.numbers.as_slice() {
            ids.push(NetId::new(*number))?;
        }
        Ok(Seq::of(ids))
    }
}

fn add_all(ports: &mut Ports, numbers: &[NetId]) -> Result<(), OutOfMemory>
    ensures { OnOk result (ports.new ≡ with_numbers ports.old numbers.now) }
{
    for number in numbers {
        ports.insert(*number)?;
    }
    Ok(())
}
