//! What computes the rows of a run.
ghost use Rattle.std.specs.Prelude.{◌≡◌, length, IfOk};
ghost use Rattle.ds_design.specs.Circuit.{columns};
ghost use Rattle.ds_opening.specs.Learnt.{is_learnt as row_is_learnt};
ghost use Rattle.ds_run.specs.Openings.{HasConeGroups};
ghost use Rattle.ds_run.specs.RunOfPlan.{IsRunOf};
ghost use Rattle.ds_rule.specs.Sound.{IsSound};

use crate::cone_groups::ConeGroups;
use crate::foreseen::Foreseen;
use crate::known::are_known;
use crate::starts::starts_of;
use ds_base::{LatchId, OutOfMemory, Row3, Scratch};
use ds_design::Vectors;
use ds_fabric::Compute;
use ds_latch::{Latches, Node, Plan};
use ds_opening::{Opening, is_learnt, open};
use ds_rule::TableRun;
use ds_split::cone_place;
use std::alloc::Global;
use std::marker::Model;

/// Computes the rows of a run from its plan: the groups of the tables that the nodes settle, and
/// the rows that the slaves start with.
pub struct Openings<'a, 'n> {
    run: &'a TableRun<Foreseen<'a, 'n>>,
    latches: &'a Latches<'n>,
    vectors: &'a Vectors,
    cones: &'a ConeGroups<'n>,
    // The places of the tables, each behind those that it reads. Contracts alone read them.
    order: &'n [u32],
    starts: Vec<Row3>,
    // Whether no start value and no value of a vector is unknown.
    known: bool,
}

impl<'a, 'n> Drop for Openings<'a, 'n> {
    fn drop(self) {
        let Openings {
            run: _,
            latches: _,
            vectors: _,
            cones: _,
            order: _,
            starts: _,
            known: _,
        } = self;
    }
}

impl<'a, 'n> Model for Openings<'a, 'n> {
    ghost use Rattle.std.specs.Prelude.{length};
    ghost use Rattle.ds_run.specs.Openings.{AreOpeningsWith, RunWithMemory, memory_of};

    ghost Value = { RunWithMemory };

    ghost view = { λ w. record {
      run = w.run.now;
      memory = memory_of w.latches.now w.cones.now.groups w.order.now w.vectors.now.rows;
      groups = length w.cones.now.groups.groups;
    } };

    ghost invariant = { λ w. AreOpeningsWith w.latches.now w.vectors.now w.run.now
        w.cones.now.groups w.order.now w.starts.items w.known };
}

impl<'a, 'n> Openings<'a, 'n> {
    /// Of a plan, the groups of its cones, its vectors, and its run on them.
    pub fn of(
        alloc: Global,
        plan: &'a Plan<'n>,
        cones: &'a ConeGroups<'n>,
        vectors: &'a Vectors,
        run: &'a TableRun<Foreseen<'a, 'n>>,
    ) -> Result<Self, OutOfMemory>
        requires width { vectors.now.width ≡ length (columns plan.now.split.circuit) }
        requires cones { HasConeGroups plan.now.split cones.now.groups }
        requires run { IsRunOf plan.now vectors.now.rows run.now }
        requires sound { IsSound run.now }
        ensures ok { IfOk result (λ w. w.run ≡ run.now) }
    {
        let latches = plan.latches();
        // Read for the facts that its numbers name what is there, and that the vectors have one
        // width.
        let (_design, order) = (latches.netlist().design(), latches.netlist().order());
        let _count = vectors.count();
        let starts = starts_of(alloc, latches.initial(), latches.clusters())?;
        Ok(Openings {
            run,
            latches,
            vectors,
            cones,
            order,
            starts,
            known: are_known(latches, vectors),
        })
    }
}

impl<'a, 'n> Compute for Openings<'a, 'n> {
    ghost run = { λ w. w.run };

    ghost memory = { λ w. w.memory };

    ghost has_learnt = { λ w k node turn. row_is_learnt w.groups k turn node };

    fn scratch(&self, alloc: Global) -> Result<Scratch, OutOfMemory> {
        let nets = self.latches.netlist().design().nets().len();
        Scratch::of(
            alloc,
            nets,
            self.cones.groups.count() + self.latches.nodes(),
        )
    }

    fn cost(&self, node: LatchId) -> u64 {
        let place = match Node::of(node) {
            Node::In | Node::Slave(_) => return 0,
            Node::Out | Node::Master(_) => cone_place(node),
        };
        if place >= self.cones.sizes.len() {
            return 0;
        }
        self.cones.sizes[place]
    }

    fn first(&self, node: LatchId, i: usize) -> u64 {
        match Node::of(node) {
            Node::In => 0,
            Node::Out => 0,
            Node::Master(_) => 0,
            Node::Slave(cluster) => self.starts[cluster as usize].word(i),
        }
    }

    fn has_learnt(&self, producer: LatchId, turn: u64, scratch: &Scratch) -> bool {
        is_learnt(&self.cones.groups, scratch, producer, turn)
    }

    fn compute(
        &self,
        node: LatchId,
        turn: u64,
        from: &[u64],
        scratch: &mut Scratch,
        into: &mut Vec<u64>,
    ) {
        let opening = Opening {
            number: node,
            turn,
            from,
            known: self.known,
        };
        open(
            self.latches,
            self.vectors,
            &self.cones.groups,
            &opening,
            scratch,
            into,
        );
    }
}
