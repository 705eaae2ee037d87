//! The text of a state: what each register has stored, how many firings there were, and where it is
//! wanted what open latches show.
ghost use Rattle.std.specs.Prelude.{◌≡◌, ◌<◌, ◌*◌, ℕ, List, length, true};
ghost use Rattle.std.specs.List.{flat_map, range_with_len};
ghost use Rattle.ds_outside.specs.Pen.{Puts};
ghost use Rattle.ds_outside.specs.Writes.{Writes};
ghost use Rattle.ds_fire.specs.Snapshot.{graph_of, limit_of, split_of};
ghost use Rattle.ds_rows.specs.Homes.{AreHomes};
ghost use Rattle.ds_replay.specs.Kept.{IsKeptText, open_part, register_line};
ghost use Rattle.ds_replay.specs.OpenLines.{AreShown};

use crate::after_log::AfterLog;
use crate::open_text::put_open_lines;
use crate::rooms::Rooms;
use ds_base::Row3;
use ds_fire::State;
use ds_latch::{Latches, Node};
use ds_outside::{Buffered, Pen, Sink, WriteFault};
use ds_rows::{Home, put_at_place, put_fired, put_register_name};

/// Writes a line for each register, and the line of the firings, once a log has been fired; where
/// what open latches show is wanted, then a line for each open node. No memory is taken but the
/// rooms, which are there; `most` is how many firings there may be.
pub fn write_kept<O: Sink>(
    latches: &Latches<'_>,
    rooms: &Rooms,
    after: &AfterLog<'_>,
    most: u64,
    out: &mut O,
) -> Result<(), WriteFault>
    requires split { split_of after.now.state.now ≡ latches.now }
    requires slack { after.now.transparent ≡ true → (split_of after.now.state.now).slack ≡ 0 }
    requires homes { AreHomes latches.now rooms.now.homes.items }
    requires rows { after.now.transparent ≡ true
        → AreShown after.now.state.now rooms.now.rows.items }
    requires most { most
        ≡ length (graph_of after.now.state.now).events * limit_of after.now.state.now }
    ensures { (text : List ℕ)
        × IsKeptText after.now.transparent after.now.state.now after.now.fired text
        × Writes result (O.written out.old) (O.written out.new)
        (O.faults out.old) (O.faults out.new) text }
{
    let homes = rooms.homes.as_slice();
    let rows = rooms.rows.as_slice();
    let mut pen = Buffered::new(out);
    put_registers(latches, homes, after.state, &mut pen);
    put_fired(after.fired, most, &mut pen);
    put_wanted(latches, after, rows, &mut pen);
    pen.finish()
}

// Writes the lines of the open nodes, where they are wanted.
fn put_wanted<P: Pen>(latches: &Latches<'_>, after: &AfterLog<'_>, rows: &[Row3], pen: &mut P)
    requires split { split_of after.now.state.now ≡ latches.now }
    requires rows { after.now.transparent ≡ true → AreShown after.now.state.now rows.now }
    ensures { Puts (P.writing pen.old) (P.writing pen.new)
        (open_part after.now.transparent after.now.state.now) }
{
    let transparent = after.transparent;
    if transparent {
        put_open_lines(latches, after.state, rows, pen);
    }
}

// Writes the lines of all registers.
fn put_registers<P: Pen>(latches: &Latches<'_>, homes: &[Home], state: &State<'_>, pen: &mut P)
    requires split { split_of state.now ≡ latches.now }
    requires homes { AreHomes latches.now homes.now }
    ensures { Puts (P.writing pen.old) (P.writing pen.new)
        (flat_map (register_line state.now homes.now)
        (range_with_len 0 (length homes.now))) }
{
    for r in 0..homes.len() {
        put_register(latches, homes, state, r, pen);
    }
}

// Writes the line of a register.
fn put_register<P: Pen>(
    latches: &Latches<'_>,
    homes: &[Home],
    state: &State<'_>,
    r: usize,
    pen: &mut P,
)
    requires split { split_of state.now ≡ latches.now }
    requires homes { AreHomes latches.now homes.now }
    requires inside { r < length homes.now }
    ensures { Puts (P.writing pen.old) (P.writing pen.new) (register_line state.now homes.now r) }
{
    // The edges are read for the fact that there are not too many nodes.
    let (_edges, clusters) = (latches.edges(), latches.clusters());
    let home = homes[r];
    let width = clusters[home.cluster].as_slice().len();
    let slave = Node::Slave(home.cluster as u32).latch();
    put_register_name(latches.netlist().design(), r, pen);
    pen.put(b": ");
    put_at_place(state.stored(slave), width, home.place, pen);
    pen.put(b"\n");
}
