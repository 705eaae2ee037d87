//! What the opening of a node computes, in a row that remembers what was computed in a turn.
ghost use Rattle.std.specs.Prelude.{◌≡◌, ◌≤◌, ◌<◌, ◌+◌, ◌++◌, ℕ, ◌^◌, true, All, IsTrue};
ghost use Rattle.std.specs.Prelude.{List, [], length, slice_index_or, vec_capacity, vec_len};
ghost use Rattle.ds_base.specs.Values.{Row};
ghost use Rattle.ds_cover.specs.Bank.{AreNetsWithin, after_tables};
ghost use Rattle.ds_cover.specs.Cover.{values_at};
ghost use Rattle.ds_cover.specs.Series.{FindsKnown, in_table_order};
ghost use Rattle.ds_design.specs.Banked.{IsBankOf};
ghost use Rattle.ds_design.specs.InRange.{IsInRange};
ghost use Rattle.ds_design.specs.Circuit.{columns};
ghost use Rattle.ds_opening.specs.Groups.{group_of, tables_in};
ghost use Rattle.ds_latch.specs.Node.{IsNode, number_of, nets_of};
ghost use Rattle.ds_latch.specs.declared.node.Node.{Node};
ghost use Rattle.ds_latch.specs.Plan.{IsSplit};
ghost use Rattle.ds_base.specs.Scratch.{HasSlot, Memory, Remembers};
ghost use Rattle.ds_settle.specs.Cone.{nets_of_tables};
ghost use Rattle.ds_opening.specs.Packed.{AreInside, packed};
ghost use Rattle.ds_base.specs.Word.{count_of_words};
ghost use Rattle.ds_opening.specs.Noted.{AreConeGroups, FindInputs, FindKnown, AreGroupSlots};
ghost use Rattle.ds_opening.specs.Noted.{AreGroupsBefore, AreRowsLearnt, HasReads, HaveStayed};
ghost use Rattle.ds_opening.specs.Noted.{AreReadRows, IsAsForeseen, IsGroupBefore, KeepsGroup};
ghost use Rattle.ds_opening.specs.Noted.{IsSlot};
ghost use Rattle.ds_opening.specs.Noted.{IsAsLong, IsLearnt, IsNotedOpening, IsSettlingOpening};
ghost use Rattle.ds_opening.specs.TurnOfOpenings.{Turn, value_taken};

use crate::TableGroups;
use crate::packed::{push_all, push_row, push_words, put_values};
use ds_base::{LatchId, NetId, Row3, Scratch, Seq, words_of};
use ds_design::{Netlist, Vectors};
use ds_latch::{Latches, Node};
use ds_split::cone_place;

/// The opening of the node with a number, in a turn, from 1 on, and what it reads: of each producer
/// whose row is not learnt its number, and behind it the words of its row. Where no start value and
/// no value of a vector is unknown, `known` may say so; then tables are set by shorter words.
#[derive(Drop)]
pub struct Opening<'a> {
    pub number: LatchId,
    pub turn: u64,
    pub from: &'a [u64],
    pub known: bool,
}

/// Puts the words of the row that a node takes behind what stands in `into`, from the words of its
/// producers' rows: of IN the next vector, of a slave the row of its master, of the others what
/// settles. That is worked out in a row that remembers: what another node has learnt or set in this
/// turn is not learnt or set again, and rows that are learnt (`is_learnt`) are not among those of
/// the opening. A group keeps its values where all that it reads is noted as what has stayed since
/// the turn before. The slots of the row are those of the groups, then one of each node: IN and the
/// slaves are learnt. It takes no memory.
pub fn open(
    latches: &Latches,
    vectors: &Vectors,
    groups: &TableGroups,
    opening: &Opening,
    scratch: &mut Scratch,
    into: &mut Vec<u64>,
)
    requires design { IsInRange latches.now.circuit × IsSplit latches.now }
    requires width { vectors.now.width ≡ length (columns latches.now.circuit) }
    requires groups { AreConeGroups latches.now groups.now }
    requires opening { (n : Node) × (t : Turn) × (m : Memory)
        × IsNotedOpening latches.now vectors.now.rows groups.now opening.now scratch.old n t m }
    requires room { (n : Node) → IsNode latches.now n → number_of n ≡ opening.now.number
        → vec_len into.old + count_of_words (length (nets_of latches.now n)) ≤ vec_capacity
        into.old }

    ensures value { (n : Node) (t : Turn) (m : Memory)
        → IsNotedOpening latches.now vectors.now.rows groups.now opening.now scratch.old n t m
        → into.new.items ≡ into.old.items ++ packed (value_taken latches.now t n) }
    ensures remembers { (n : Node) (t : Turn) (m : Memory)
        → IsNotedOpening latches.now vectors.now.rows groups.now opening.now scratch.old n t m
        → Remembers m scratch.new }
    ensures room { vec_capacity into.new ≡ vec_capacity into.old }
{
    match Node::of(opening.number) {
        Node::In => push_row(vectors.row((opening.turn - 1) as usize), into),
        Node::Out | Node::Master(_) => open_groups(latches, groups, opening, scratch, into),
        Node::Slave(_) => {
            // The number of its master stands before the words.
            let words = &opening.from[1..];
            push_all(words, into);
        }
    }
}

// The same of a node that settles.
fn open_groups(
    latches: &Latches,
    groups: &TableGroups,
    opening: &Opening,
    scratch: &mut Scratch,
    into: &mut Vec<u64>,
)
    requires range { IsInRange latches.now.circuit }
    requires split { IsSplit latches.now }
    requires groups { AreConeGroups latches.now groups.now }
    requires settling { (n : Node) × (t : Turn) × (m : Memory)
        × IsSettlingOpening latches.now groups.now opening.now scratch.old n t m }
    requires room { (n : Node) → IsNode latches.now n → number_of n ≡ opening.now.number
        → vec_len into.old + count_of_words (length (nets_of latches.now n)) ≤ vec_capacity
        into.old }

    ensures value { (n : Node) (t : Turn) (m : Memory)
        → IsSettlingOpening latches.now groups.now opening.now scratch.old n t m
        → into.new.items ≡ into.old.items ++ packed (value_taken latches.now t n) }
    ensures remembers { (n : Node) (t : Turn) (m : Memory)
        → IsSettlingOpening latches.now groups.now opening.now scratch.old n t m
        → Remembers m scratch.new }
    ensures room { vec_capacity into.new ≡ vec_capacity into.old }
{
    // The edges are read for the fact that there are not too many nodes.
    let (bits, _edges) = (latches.bits(), latches.edges());
    learn_rows(bits, groups.count(), opening, scratch);
    let list = groups.of_cone(cone_place(opening.number));
    set_groups(latches.netlist(), groups, list, opening, scratch);
    push_words(
        scratch.nets(),
        bits[opening.number.index()].as_slice(),
        into,
    );
}

// Gives the nets of the producers the values of the rows that were read. Behind the first so many
// slots stand those of the nodes.
fn learn_rows(bits: &[Seq<NetId>], first: usize, opening: &Opening, scratch: &mut Scratch)
    requires turn { 0 < opening.now.turn }
    requires slots { length scratch.old.stayed ≡ length scratch.old.turns }
    requires few { (first < 2 ^ 63) × (length bits.now < 2 ^ 32) }
    requires read { (foreseen : Row) × (nodes : List ℕ)
        × AreReadRows bits.now first opening.now scratch.old foreseen nodes }

    ensures value { (m : Memory) (foreseen : Row) (nodes : List ℕ)
        → AreReadRows bits.now first opening.now scratch.old foreseen nodes
        → All (λ node. IsSlot m opening.now.turn (first + node)
        (slice_index_or bits.now node []) foreseen) nodes
        → Remembers m scratch.old
        → AreRowsLearnt m foreseen bits.now nodes scratch.new }
    ensures same { IsAsLong scratch.old scratch.new }
{
    let mut rest = opening.from;
    'rows: while rest.len() > 0 {
        let node = rest[0] as usize;
        let these = bits[node].as_slice();
        let (row, others) = rest[1..].split_at(words_of(these.len()));
        learn_row(row, these, first + node, opening.turn, scratch);
        rest = others;
    }
}

// Gives the nets of one producer the values of its row. The slot has stayed where they had them, as
// those of the turn before.
fn learn_row(row: &[u64], these: &[NetId], slot: usize, turn: u64, scratch: &mut Scratch)
    requires turn { 0 < turn }
    requires within { AreInside these.now scratch.old.nets }
    requires slot { HasSlot slot scratch.old }
    requires words { length row.now ≡ count_of_words (length these.now) }

    ensures value { (m : Memory) (foreseen : Row) → IsSlot m turn slot these.now foreseen
        → row.now ≡ packed (values_at foreseen these.now) → Remembers m scratch.old
        → IsLearnt m foreseen these.now scratch.old scratch.new }
    ensures same { IsAsLong scratch.old scratch.new }
{
    let was_noted = scratch.is_noted(slot, turn - 1);
    let stayed = put_values(row, these, scratch.nets_mut()) && was_noted;
    scratch.note(slot, turn, stayed);
}

// Sets the tables of these groups, one group after another, where they are not set.
fn set_groups(
    netlist: &Netlist,
    groups: &TableGroups,
    list: &[u32],
    opening: &Opening,
    scratch: &mut Scratch,
)
    requires turn { 0 < opening.now.turn }
    requires packed { IsBankOf netlist.now.tables groups.now.bank }
    requires groups { All (λ a. a < length groups.now.groups) list.now }
    requires tables { (a : ℕ) → All (λ k. k < length netlist.now.tables) (group_of groups.now a) }
    requires nets { length scratch.old.nets ≡ length netlist.now.nets }
    requires slots { HasReads groups.now scratch.old }
    requires known { opening.now.known ≡ true
        → FindKnown netlist.now groups.now opening.now.turn list.now scratch.old }

    ensures value { (m : Memory) (foreseen : Row)
        → AreGroupSlots netlist.now groups.now m opening.now.turn foreseen
        → AreGroupsBefore netlist.now groups.now m opening.now.turn
        → FindInputs netlist.now foreseen (IsAsForeseen foreseen scratch.old.nets)
        (tables_in groups.now list.now)
        → Remembers m scratch.old
        → IsLearnt m foreseen (nets_of_tables netlist.now (tables_in groups.now list.now))
        scratch.old scratch.new }
    ensures same { IsAsLong scratch.old scratch.new }
{
    // Read for the fact that its numbers name what is there.
    let _design = netlist.design();
    for group in list {
        set_group(netlist, groups, *group as usize, opening, scratch);
    }
}

// The same of one group. Where all that it reads is noted as what has stayed, it keeps its values.
fn set_group(
    netlist: &Netlist,
    groups: &TableGroups,
    number: usize,
    opening: &Opening,
    scratch: &mut Scratch,
)
    requires turn { 0 < opening.now.turn }
    requires packed { IsBankOf netlist.now.tables groups.now.bank }
    requires number { number < length groups.now.groups }
    requires tables { All (λ k. k < length netlist.now.tables) (group_of groups.now number) }
    requires nets { length scratch.old.nets ≡ length netlist.now.nets }
    requires slots { HasReads groups.now scratch.old }
    requires known { opening.now.known ≡ true
        → FindsKnown (in_table_order groups.now.bank (group_of groups.now number))
        scratch.old.nets }

    ensures value { (m : Memory) (foreseen : Row)
        → IsSlot m opening.now.turn number
        (nets_of_tables netlist.now (group_of groups.now number)) foreseen
        → IsGroupBefore netlist.now groups.now m opening.now.turn number
        → FindInputs netlist.now foreseen (IsAsForeseen foreseen scratch.old.nets)
        (group_of groups.now number)
        → Remembers m scratch.old
        → IsLearnt m foreseen (nets_of_tables netlist.now (group_of groups.now number)) scratch.old
        scratch.new }
    ensures same { IsAsLong scratch.old scratch.new }
{
    let turn = opening.turn;
    if scratch.is_noted(number, turn) {
        return;
    }
    // Read for the fact that its numbers name what is there.
    let _design = netlist.design();
    if keeps(groups, number, turn, scratch) {
        scratch.note(number, turn, true);
    } else {
        put_group(groups, number, opening.known, scratch.nets_mut());
        scratch.note(number, turn, false);
    }
}

// Sets what the tables of a group drive, by shorter words where each finds its inputs known.
fn put_group(groups: &TableGroups, number: usize, known: bool, nets: &mut Row3)
    requires number { number < length groups.now.groups }
    requires within { All (λ t. AreNetsWithin t nets.old) groups.now.bank }
    requires known { known ≡ true
        → FindsKnown (in_table_order groups.now.bank (group_of groups.now number)) nets.old }
    ensures { nets.new ≡ after_tables groups.now.bank nets.old (group_of groups.now number) }
{
    if known {
        groups.set_known(number, nets);
    } else {
        groups.set(number, nets);
    }
}

// Whether a group is noted for the turn before, and each slot of its list as one that has stayed
// since.
fn keeps(groups: &TableGroups, number: usize, turn: u64, scratch: &Scratch) -> bool
    requires number { number < length groups.now.groups }
    requires slots { HasReads groups.now scratch.now }
    ensures { IsTrue result → KeepsGroup groups.now turn number scratch.now }
{
    groups.has_reads()
        && turn > 1
        && have_stayed(groups.reads(number), turn, scratch)
        && scratch.is_noted(number, turn - 1)
}

// Whether each of these slots has stayed in this turn.
fn have_stayed(slots: &[usize], turn: u64, scratch: &Scratch) -> bool
    requires { All (λ s. HasSlot s scratch.now) slots.now }
    ensures { IsTrue result → HaveStayed turn scratch.now slots.now }
{
    for slot in slots {
        if !scratch.has_stayed(*slot, turn) {
            return false;
        }
    }
    true
}
