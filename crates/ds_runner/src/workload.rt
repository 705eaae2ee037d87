use ds_fabric::{Compute, Fabric};
use ds_outside::Gate;
use ds_rule::{RunValues, TableRun};
use std::marker::Model;

/// What all workers use: the shared table, its run and the gate. Contracts see the table.
#[derive(Drop)]
pub struct Workload<'a, 'b, V: RunValues, C: Compute, G: Gate> {
    pub fabric: &'a Fabric<'b, V, C>,
    pub run: &'a TableRun<V>,
    pub gate: &'a G,
}

impl<'a, 'b, V: RunValues, C: Compute, G: Gate> Model for Workload<'a, 'b, V, C, G> {
    ghost use Rattle.std.specs.Prelude.{◌≡◌};
    ghost use Rattle.ds_rule.specs.Sound.{IsSound};
    ghost use Rattle.ds_fabric.specs.Base.{Base};

    ghost Value = { Base };

    ghost view = { λ s. s.fabric.now };

    ghost invariant = { λ s. (s.run.now ≡ s.fabric.now.run) × IsSound s.run.now };
}
