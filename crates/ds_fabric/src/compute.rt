//! What a fabric asks of who computes the rows.
ghost use Rattle.std.specs.Prelude.{◌≡◌, ◌<◌, ◌≤◌, ◌+◌, ◌++◌, ℕ, Bool, IfOk, length, vec_len};
ghost use Rattle.std.specs.Prelude.{vec_capacity};
ghost use Rattle.ds_base.specs.Scratch.{Kept, Memory, Remembers};
ghost use Rattle.ds_rule.specs.Run.{Run};
ghost use Rattle.ds_rule.specs.Words.{width, value};
ghost use Rattle.ds_rule.specs.Rows.{row, supply_but};

use ds_base::{LatchId, OutOfMemory, Scratch};
use std::alloc::Global;

/// How the row of an opening comes from the rows of its producers: what settles in a run.
pub trait Compute {
    // the run
    ghost run: { Self → Run };

    // what a scratch remembers from one call of `compute` to the next
    ghost memory: { Self → Memory };

    // whether a scratch has learnt the row of a producer that openings of this turn read
    ghost has_learnt: { Self → Kept → ℕ → ℕ → Bool };

    /// A scratch for `compute`, which serves one worker for all nodes and turns.
    fn scratch(&self, alloc: Global) -> Result<Scratch, OutOfMemory>
        ensures { IfOk result (Remembers (memory self.now)) };

    /// How much work an opening of the node is beside the firing where nothing is remembered,
    /// counted in tables. A hint: it promises nothing.
    fn cost(&self, node: LatchId) -> u64
        requires node { node < (run self.now).nodes };

    /// Word i of the value that the node has before it opens.
    fn first(&self, node: LatchId, i: usize) -> u64
        requires node { node < (run self.now).nodes }
        requires word { i < width (run self.now) node }
        ensures { result ≡ value (run self.now) node 0 i };

    /// Whether this scratch has learnt the row of the producer that openings of this turn read:
    /// `compute` is not handed it then.
    fn has_learnt(&self, producer: LatchId, turn: u64, scratch: &Scratch) -> bool
        requires producer { producer < (run self.now).design_nodes }
        requires remembers { Remembers (memory self.now) scratch.now }
        ensures { result ≡ has_learnt self.now scratch.now producer turn };

    /// The row of opening number `turn` of the node, behind what stands in `into`, from what it
    /// reads, edge by edge: the number of each producer whose row the scratch has not learnt, and
    /// behind it that row.
    fn compute(
        &self,
        node: LatchId,
        turn: u64,
        from: &[u64],
        scratch: &mut Scratch,
        into: &mut Vec<u64>,
    )
        requires node { node < (run self.now).design_nodes }
        requires turn { (0 < turn) × (turn ≤ (run self.now).limit) }
        requires from { from.now ≡ supply_but (run self.now)
            (λ p. has_learnt self.now scratch.old p turn) node turn (length (run self.now).edges) }
        requires remembers { Remembers (memory self.now) scratch.old }
        requires room { vec_len into.old + width (run self.now) node ≤ vec_capacity into.old }

        ensures value { into.new.items ≡ into.old.items ++ row (run self.now) node turn }
        ensures remembers { Remembers (memory self.now) scratch.new }
        ensures room { vec_capacity into.new ≡ vec_capacity into.old };
}
