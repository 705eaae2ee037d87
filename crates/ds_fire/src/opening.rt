//! The rows that nodes take as they open.
ghost use Rattle.std.specs.Prelude.{◌≡◌, ◌+◌, ◌*◌, ◌<◌, ◌≤◌, ◌^◌, ℕ, List, [], All, length};
ghost use Rattle.std.specs.Prelude.{slice_index_or, slice_set};
ghost use Rattle.ds_base.specs.Values.{Row};
ghost use Rattle.ds_design.specs.Circuit.{columns};
ghost use Rattle.ds_design.specs.InRange.{IsInRange};
ghost use Rattle.ds_latch.specs.Plan.{IsSplit};
ghost use Rattle.ds_latch.specs.Node.{IsNode, number_of, nodes};
ghost use Rattle.ds_latch.specs.declared.node.Node.{Node};
ghost use Rattle.ds_latch.specs.declared.node.Node.TheVariants.{In, Slave};
ghost use Rattle.ds_split.specs.Cones.{IsSettlingAt};
ghost use Rattle.ds_fire.specs.Feeds.{AreFeeds, home_of};
ghost use Rattle.ds_fire.specs.Turn.{AreLow, AreRows, IsLoaded, IsOpened, IsThere};
ghost use Rattle.ds_fire.specs.Turn.{IsSettledOn, Opens, home_index};

use crate::feeds::Feeds;
use crate::homes::NetHome;
use crate::kept::Kept;
use crate::row_places::RowPlaces;
use ds_base::{LatchId, NetId, Row3};
use ds_design::Vectors;
use ds_latch::{Latches, Node};
use ds_settle::{pick_values, settle_part};
use ds_split::cone_place;

// Which node opens, and how often it has opened before.
#[derive(Clone, Copy)]
pub(crate) struct NodeOpening {
    pub(crate) latch: LatchId,
    pub(crate) opened: usize,
}

// The node that opens takes its row: IN the next vector, a slave the row of its master, the others
// what settles.
pub(crate) fn open(
    latches: &Latches,
    vectors: &Vectors,
    feeds: &Feeds,
    opening: NodeOpening,
    kept: &mut Kept,
)
    requires node { opening.latch < nodes latches.now }
    requires few { opening.opened < 2 ^ 32 }
    requires design { IsInRange latches.now.circuit × IsSplit latches.now }
    requires vector { opening.opened < length vectors.now.rows }
    requires width { vectors.now.width ≡ length (columns latches.now.circuit) }
    requires feeds { AreFeeds latches.now feeds.now }
    requires rows { AreRows latches.now kept.old.rows.items }
    requires nets { length kept.old.nets ≡ length latches.now.circuit.nets }
    ensures opens { Opens latches.now vectors.now.rows opening.opened opening.latch
        kept.old.rows.items kept.new.rows.items }
    ensures nets { length kept.new.nets ≡ length kept.old.nets }
    ensures stored { kept.new.stored.items ≡ kept.old.stored.items }
{
    match Node::of(opening.latch) {
        Node::In => open_in(latches, vectors, opening.opened, kept),
        Node::Out => open_settled(latches, feeds, opening, kept),
        Node::Master(_) => open_settled(latches, feeds, opening, kept),
        Node::Slave(_) => open_slave(latches, opening, kept),
    }
}

// IN takes the next vector.
fn open_in(latches: &Latches, vectors: &Vectors, opened: usize, kept: &mut Kept)
    requires few { opened < 2 ^ 32 }
    requires vector { opened < length vectors.now.rows }
    requires width { vectors.now.width ≡ length (columns latches.now.circuit) }
    requires rows { AreRows latches.now kept.old.rows.items }
    ensures opens { IsOpened latches.now vectors.now.rows opened In
        kept.old.rows.items kept.new.rows.items }
    ensures nets { length kept.new.nets ≡ length kept.old.nets }
    ensures stored { kept.new.stored.items ≡ kept.old.stored.items }
{
    let places = RowPlaces::of(latches, opened);
    kept.rows[places.next].copy_from(vectors.row(opened));
}

// A slave takes the row of its master, which stands before it.
fn open_slave(latches: &Latches, opening: NodeOpening, kept: &mut Kept)
    requires few { opening.opened < 2 ^ 32 }
    requires slave { (i : ℕ) × IsNode latches.now (Slave i)
        × (number_of (Slave i) ≡ opening.latch) }
    requires rows { AreRows latches.now kept.old.rows.items }
    ensures opens { (vectors : List Row) → Opens latches.now vectors opening.opened opening.latch
        kept.old.rows.items kept.new.rows.items }
    ensures nets { length kept.new.nets ≡ length kept.old.nets }
    ensures stored { kept.new.stored.items ≡ kept.old.stored.items }
{
    let places = RowPlaces::of(latches, opening.opened);
    let at = opening.latch.index() * places.each + places.next;
    copy_row(&mut kept.rows, at - places.each, at);
}

// A node that settles takes what its cone settles to, for what its producers keep.
fn open_settled(latches: &Latches, feeds: &Feeds, opening: NodeOpening, kept: &mut Kept)
    requires few { opening.opened < 2 ^ 32 }
    requires node { (n : Node) × IsSettlingAt latches.now n opening.latch }
    requires design { IsInRange latches.now.circuit × IsSplit latches.now }
    requires feeds { AreFeeds latches.now feeds.now }
    requires rows { AreRows latches.now kept.old.rows.items }
    requires nets { length kept.old.nets ≡ length latches.now.circuit.nets }
    ensures opens { (vectors : List Row) → Opens latches.now vectors opening.opened opening.latch
        kept.old.rows.items kept.new.rows.items }
    ensures nets { length kept.new.nets ≡ length kept.old.nets }
    ensures stored { kept.new.stored.items ≡ kept.old.stored.items }
{
    let number = opening.latch.index();
    let places = RowPlaces::of(latches, opening.opened);
    settle(
        latches,
        feeds,
        opening,
        kept.rows.as_slice(),
        &mut kept.nets,
    );
    let into = number * places.each + places.next;
    pick_values(
        &kept.nets,
        latches.bits()[number].as_slice(),
        &mut kept.rows[into],
    );
}

// Settles the cone of a node, in a row of all nets, for what its producers keep.
pub(crate) fn settle(
    latches: &Latches,
    feeds: &Feeds,
    opening: NodeOpening,
    rows: &[Row3],
    nets: &mut Row3,
)
    requires few { opening.opened < 2 ^ 32 }
    requires node { (n : Node) × IsSettlingAt latches.now n opening.latch }
    requires design { IsInRange latches.now.circuit × IsSplit latches.now }
    requires feeds { AreFeeds latches.now feeds.now }
    requires rows { AreRows latches.now rows.now }
    requires nets { length nets.old ≡ length latches.now.circuit.nets }
    ensures settled { (n : Node) → IsSettlingAt latches.now n opening.latch
        → IsSettledOn latches.now rows.now opening.opened n nets.new }
    ensures same { length nets.new ≡ length nets.old }
{
    let places = RowPlaces::of(latches, opening.opened);
    let cone = &feeds.cones[cone_place(opening.latch)];
    load(cone.sources(), feeds.homes.as_slice(), rows, places, nets);
    settle_part(latches.netlist(), cone, nets);
}

// Gives each of these nets the value that its home has at these places.
fn load(sources: &[NetId], homes: &[NetHome], rows: &[Row3], places: RowPlaces, nets: &mut Row3)
    requires low { AreLow places }
    requires homes { All (λ net. net < length homes.now) sources.now }
    requires there { All (λ net. IsThere places rows.now (home_of homes.now net)) sources.now }
    requires nets { All (λ net. net < length nets.old) sources.now }
    ensures loaded { All (IsLoaded places rows.now homes.now nets.new) sources.now }
    ensures same { length nets.new ≡ length nets.old }
{
    for net in sources {
        let home = homes[net.index()];
        let value = rows[row_of(home, places)].value(home.bit);
        nets.set(net.index(), value);
    }
}

// Where the row of a home is kept.
fn row_of(home: NetHome, places: RowPlaces) -> usize
    requires { AreLow places }
    ensures { result ≡ home_index places home }
{
    let node = home.node as usize;
    if node == 0 {
        places.next
    } else {
        node * places.each + places.same
    }
}

// A row takes the values of one before it.
fn copy_row(rows: &mut [Row3], from: usize, to: usize)
    requires order { from < to }
    requires inside { to < length rows.old }
    requires width { length (slice_index_or rows.old from [])
        ≡ length (slice_index_or rows.old to []) }
    ensures { rows.new ≡ slice_set rows.old to (slice_index_or rows.old from []) }
{
    let (before, rest) = rows.split_at_mut(to);
    rest[0].copy_from(&before[from]);
}
