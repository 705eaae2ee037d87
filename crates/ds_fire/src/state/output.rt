//! What open nodes show.
ghost use Rattle.std.specs.Prelude.{◌≡◌, ◌↔◌, ◌<◌, ℕ, IsTrue, length, true};
ghost use Rattle.ds_base.specs.Values.{Row};
ghost use Rattle.ds_design.specs.Run.{row_at};
ghost use Rattle.ds_latch.specs.Node.{IsNode, number_of, nodes, closing};
ghost use Rattle.ds_latch.specs.declared.node.Node.{Node};
ghost use Rattle.ds_latch.specs.declared.node.Node.TheVariants.{In, Master, Slave};
ghost use Rattle.ds_latch.specs.Firing.{State as DefinedState, IsSettled};
ghost use Rattle.ds_latch.specs.Transparent.{IsOpen, IsShowing};
ghost use Rattle.ds_split.specs.Taken.{TakesFrom};
ghost use Rattle.ds_split.specs.Cones.{IsSettlingAt};
ghost use Rattle.ds_fire.specs.Snapshot.{Shows, split_of, count_of, held_row, is_open, width_of};

use super::State;
use crate::opening::{NodeOpening, settle};
use ds_base::{EventId, LatchId, Row3};
use ds_latch::Node;
use ds_settle::pick_values;

impl State<'_> {
    /// Whether a node is open: it has opened once more than it has closed.
    pub fn is_open(&self, latch: LatchId) -> bool
        requires { latch < nodes (split_of self.now) }
        ensures value { (n : Node) → IsNode (split_of self.now) n → number_of n ≡ latch
            → result ≡ is_open self.now n }
        ensures shown { (n : Node) → IsNode (split_of self.now) n → number_of n ≡ latch
            → (now : DefinedState) → Shows self.now now → IsTrue result ↔ IsOpen now n }
    {
        let _ = &self.counts;
        let opened = self.count(EventId::new(2 * latch.number()));
        let closed = self.count(EventId::new(2 * latch.number() + 1));
        opened == closed + 1
    }

    /// What a node shows, without memory, for a plan without slack: a closed one the row that it
    /// holds. An open one lets through what it makes of what the others hold: IN the vector of its
    /// opening, a slave the row of its master, the others what their cone settles to. What stands
    /// in `nets` is free before and after.
    pub fn output(&self, latch: LatchId, nets: &mut Row3, into: &mut Row3)
        requires node { latch < nodes (split_of self.now) }
        requires slack { (split_of self.now).slack ≡ 0 }
        requires nets { length nets.old ≡ length (split_of self.now).circuit.nets }
        requires width { (n : Node) → IsNode (split_of self.now) n → number_of n ≡ latch
            → length into.old ≡ width_of self.now n }

        // The row is the node's in each way to show, and that is what it holds.
        ensures value { (n : Node) → IsNode (split_of self.now) n → number_of n ≡ latch
            → into.new ≡ held_row self.now n }
        ensures shown { (n : Node) → IsNode (split_of self.now) n → number_of n ≡ latch
            → (now : DefinedState) → Shows self.now now → (shown : Node → Row)
            → IsShowing (split_of self.now) self.now.vectors now shown → into.new ≡ shown n }
        ensures same { length nets.new ≡ length nets.old }
    {
        self.reached();
        if self.is_open(latch) {
            self.make(latch, nets, into);
        } else {
            into.copy_from(self.held(latch));
        }
    }

    // What an open node makes of what the others hold.
    fn make(&self, latch: LatchId, nets: &mut Row3, into: &mut Row3)
        requires node { latch < nodes (split_of self.now) }
        requires slack { (split_of self.now).slack ≡ 0 }
        requires opened { (n : Node) → IsNode (split_of self.now) n → number_of n ≡ latch
            → is_open self.now n ≡ true }
        requires nets { length nets.old ≡ length (split_of self.now).circuit.nets }
        requires width { (n : Node) → IsNode (split_of self.now) n → number_of n ≡ latch
            → length into.old ≡ width_of self.now n }
        ensures takes { (n : Node) → IsNode (split_of self.now) n → number_of n ≡ latch
            → TakesFrom (split_of self.now) self.now.vectors (count_of self.now (closing n))
            (held_row self.now) n into.new }
        ensures same { length nets.new ≡ length nets.old }
    {
        match Node::of(latch) {
            Node::In => self.copy_vector(into),
            Node::Out => self.copy_settled(latch, nets, into),
            Node::Master(_) => self.copy_settled(latch, nets, into),
            Node::Slave(_) => self.copy_master(latch, into),
        }
    }

    // IN lets a vector through.
    fn copy_vector(&self, into: &mut Row3)
        requires opened { is_open self.now In ≡ true }
        requires width { length into.old ≡ width_of self.now In }
        ensures { into.new ≡ row_at self.now.vectors (count_of self.now (closing In)) }
    {
        into.copy_from(self.vectors.row(self.vector_shown()));
    }

    // Which vector IN lets through: it has stored those before.
    fn vector_shown(&self) -> usize
        ensures { result ≡ count_of self.now (closing In) }
    {
        let _ = &self.counts;
        self.count(EventId::new(1)) as usize
    }

    // A slave lets through what its master holds, which stands before it.
    fn copy_master(&self, latch: LatchId, into: &mut Row3)
        requires node { latch < nodes (split_of self.now) }
        requires slave { (i : ℕ) × IsNode (split_of self.now) (Slave i)
            × (number_of (Slave i) ≡ latch) × (length into.old ≡ width_of self.now (Slave i)) }
        ensures { (i : ℕ) → IsNode (split_of self.now) (Slave i) → number_of (Slave i) ≡ latch
            → into.new ≡ held_row self.now (Master i) }
    {
        self.reached();
        let master = LatchId::new(latch.number() - 1);
        into.copy_from(self.held(master));
    }

    // The others let through what their cone settles to. Without slack a node has one place, so
    // that all openings read the same rows.
    fn copy_settled(&self, latch: LatchId, nets: &mut Row3, into: &mut Row3)
        requires slack { (split_of self.now).slack ≡ 0 }
        requires node { (n : Node) × IsSettlingAt (split_of self.now) n latch
            × (length into.old ≡ width_of self.now n) }
        requires nets { length nets.old ≡ length (split_of self.now).circuit.nets }
        ensures settled { (n : Node) → IsSettlingAt (split_of self.now) n latch
            → IsSettled (split_of self.now) (held_row self.now) n into.new }
        ensures same { length nets.new ≡ length nets.old }
    {
        let latches = self.plan.latches();
        let opening = NodeOpening { latch, opened: 0 };
        settle(
            latches,
            &self.feeds,
            opening,
            self.kept.rows.as_slice(),
            nets,
        );
        pick_values(nets, latches.bits()[latch.index()].as_slice(), into);
    }
}
