//! A plan: latches together with a graph that controls them.
ghost use Rattle.std.specs.Prelude.{◌≡◌, ◌*◌, length};
ghost use Rattle.ds_latch.specs.Node.{begun};
ghost use Rattle.ds_latch.specs.Plan.{IsController, IsPlan, Planned};

use crate::Latches;
use ds_base::Row3;
use ds_design::Vectors;
use ds_marked::Marked;
use std::marker::Model;

/// A split design with a controller graph that is accepted for it.
pub struct Plan<'a> {
    latches: Latches<'a>,
    graph: Marked,
}

impl Drop for Plan<'_> {
    fn drop(self) {
        let Plan {
            latches: _,
            graph: _,
        } = self;
    }
}

impl<'a> Model for Plan<'a> {
    ghost use Rattle.ds_latch.specs.Plan.{IsPlan, Planned};

    ghost Value = { Planned };

    ghost view = { λ p. record { split = p.latches; graph = p.graph } };

    ghost invariant = { λ p. IsPlan p.latches p.graph };
}

impl<'a> Plan<'a> {
    /// Of a graph that is accepted.
    pub fn of(latches: Latches<'a>, graph: Marked) -> Self
        requires { IsPlan latches graph }
        ensures { result ≡ record { split = latches.entry; graph = graph } }
    {
        Plan { latches, graph }
    }

    /// The split design.
    pub fn latches(&self) -> &Latches<'a>
        ensures { result.now ≡ self.now.split }
    {
        &self.latches
    }

    /// The controller graph.
    pub fn graph(&self) -> &Marked
        ensures graph { result.now ≡ self.now.graph }
        ensures accepted { IsPlan self.now.split self.now.graph }
        ensures controls { IsController self.now.split self.now.graph }
    {
        &self.graph
    }

    /// How often its events fire in all where each fires once a vector.
    pub fn most_firings(&self, vectors: &Vectors) -> u64
        ensures { result ≡ length self.now.graph.events * length vectors.now.rows }
    {
        self.graph.events().len() as u64 * vectors.count() as u64
    }

    /// The registers start as this row says.
    #[tactic(auto, using(crate::proofs::PlanWindows::plan_begun))]
    pub fn begin(&mut self, row: &Row3)
        requires { length row.now ≡ length self.old.split.circuit.registers }
        ensures { self.new ≡ record {
          split = begun self.old.split row.now;
          graph = self.old.graph;
        } }
    {
        self.latches.begin(row);
    }
}
