//! The firing of one event. Unless it is known to be enabled, its sources are looked at first, and
//! it fires only if they show enough. Its node departs on what the rule calls a flight: an opening
//! reads rows and writes the new one; of each event a ticket is drawn and the count is published.
ghost use Rattle.std.specs.Prelude.{ℕ, ◌≡◌, ◌<◌, ◌≤◌, ◌+◌, [], true, vec_len};
ghost use mathlib.Core.Option.{some};
ghost use lib.ListN.{get_elem?};
ghost use Rattle.ds_base.specs.Scratch.{Remembers};
ghost use Rattle.ds_rule.specs.Run.{next, IsEnabledInRun};
ghost use Rattle.ds_rule.specs.Words.{width};
ghost use Rattle.ds_rule.specs.Rows.{row, IsOpening};
ghost use Rattle.ds_rule.specs.Rule.{holds, seen};
ghost use Rattle.ds_rule.specs.Plays.{after_depart, after_draw, after_publish};
ghost use Rattle.ds_fabric.specs.Base.{IsAway, IsInFlight, HasWritten};
ghost use Rattle.ds_fabric.specs.HistoryList.{new_row};
ghost use Rattle.ds_fabric.specs.Noted.{HasFired};
ghost use Rattle.ds_fabric.specs.Into.{AreInto};
ghost use Rattle.ds_fabric.specs.Indexed.{IsHistoryAt};
ghost use Rattle.ds_fabric.specs.Noted.{IsArmed, IsNextRole};
ghost use Rattle.ds_fabric.specs.Showing.{IsPass};
ghost use Rattle.ds_fabric.specs.Stepped.{FiresWith, Stepped};
ghost use Rattle.ds_fabric.specs.declared.history.History.{History};
ghost use Rattle.ds_fabric.specs.Flight.{HasRoomFor, HasSameRoom};

use crate::buffers::Buffers;
use crate::compute::Compute;
use crate::context::Context;
use crate::counts::survey;
use crate::due_event::DueEvent;
use crate::histories::Histories;
use crate::learnt::Learnt;
use crate::opening_in_flight::OpeningInFlight;
use crate::rows::{read_rows, write_row};
use crate::step::Step;
use atomic_table::Seat;
use ds_base::{ArcId, EventId, LatchId, Scratch};
use ds_rule::{Depart, Draw, EventRole, NodeEvent, Publish, RunValues, View};

/// Fires the next event of the node of history number `at`, if what its sources show is enough.
pub fn fire_if_enabled<V: RunValues, C: Compute>(
    context: &Context<V, C>,
    seat: &mut Seat<u8, View>,
    histories: &mut Histories,
    at: usize,
    scratch: &mut Scratch,
) -> Step
    requires table { seat.old.table_id ≡ context.now.board.now.table_id }
    requires incoming { AreInto context.now.run.now context.now.incoming.now }
    requires remembers { Remembers (C.memory context.now.openings.now) scratch.old }
    requires run { seat.old.me.0.run ≡ context.now.run.now }
    requires pass { (room : ℕ) × IsPass seat.old.me room histories.old }
    requires there { (node : ℕ) × IsHistoryAt histories.old.nodes.items at node }

    ensures table { seat.new.table_id ≡ seat.old.table_id }
    ensures step { (node : ℕ) → IsHistoryAt histories.old.nodes.items at node
        → Stepped context.now.run.now seat.old.me.0 node result seat.new.me.0 }
    ensures pass { (room : ℕ) → IsPass seat.old.me room histories.old
        → IsPass seat.new.me room histories.new }
    ensures many { vec_len histories.new.nodes ≡ vec_len histories.old.nodes }
    ensures same { (seat.new.me.0.run ≡ seat.old.me.0.run)
        × (seat.new.me.0.holds ≡ seat.old.me.0.holds) }
    ensures remembers { Remembers (C.memory context.now.openings.now) scratch.new }
{
    let run = context.run;
    let history = &histories.nodes[at];
    let fired = history.fired;
    let event = run.next(history.node, fired);
    let before = run.turns(event, fired);
    if before >= run.limit() {
        return Step::Done;
    }
    let turn = before + 1;
    if let Some((arc, seen)) = survey(context, seat, event, turn) {
        let arc = ArcId::new(arc as u32);
        return Step::NotYet { arc, seen };
    }
    let ticket = fire(context, seat, histories, at, scratch);
    let event = EventId::new(event as u32);
    Step::Fired {
        event,
        turn,
        ticket,
    }
}

/// Fires the next event of the node of history number `at`, which is enabled at what was seen: its
/// sources are not looked at.
pub fn fire_enabled<V: RunValues, C: Compute>(
    context: &Context<V, C>,
    seat: &mut Seat<u8, View>,
    histories: &mut Histories,
    at: usize,
    scratch: &mut Scratch,
) -> u64
    requires table { seat.old.table_id ≡ context.now.board.now.table_id }
    requires remembers { Remembers (C.memory context.now.openings.now) scratch.old }
    requires run { seat.old.me.0.run ≡ context.now.run.now }
    requires pass { (room : ℕ) × IsPass seat.old.me room histories.old }
    requires enabled { (node : ℕ) × IsHistoryAt histories.old.nodes.items at node
        × IsEnabledInRun context.now.run.now (seen seat.old.me.0)
        (next context.now.run.now node (seen seat.old.me.0 node)) }

    ensures table { seat.new.table_id ≡ seat.old.table_id }
    ensures fires { (node : ℕ) → IsHistoryAt histories.old.nodes.items at node
        → FiresWith context.now.run.now seat.old.me.0 seat.new.me.0 node result }
    ensures pass { (room : ℕ) → IsPass seat.old.me room histories.old
        → IsPass seat.new.me room histories.new }
    ensures many { vec_len histories.new.nodes ≡ vec_len histories.old.nodes }
    ensures same { (seat.new.me.0.run ≡ seat.old.me.0.run)
        × (seat.new.me.0.holds ≡ seat.old.me.0.holds) }
    ensures remembers { Remembers (C.memory context.now.openings.now) scratch.new }
{
    fire(context, seat, histories, at, scratch)
}

// Fires the next event of the node of history number `at`: what was seen is enough for it.
fn fire<V: RunValues, C: Compute>(
    context: &Context<V, C>,
    seat: &mut Seat<u8, View>,
    histories: &mut Histories,
    at: usize,
    scratch: &mut Scratch,
) -> u64
    requires table { seat.old.table_id ≡ context.now.board.now.table_id }
    requires remembers { Remembers (C.memory context.now.openings.now) scratch.old }
    requires armed { (h : History)
        × IsArmed context.now.run.now seat.old.me.0 histories.old at h }

    ensures table { (seat.new.table_id ≡ seat.old.table_id) × (seat.new.id ≡ seat.old.id) }
    ensures me { (h : History) → get_elem? histories.old.nodes.items at ≡ some h
        → seat.new.me
        ≡ (
          after_publish (after_draw (after_depart seat.old.me.0 h.node) result),
          seat.old.me.1,
        ) }
    ensures fresh { seat.old.me.0.drawn ≤ result }
    ensures noted { (h : History) → get_elem? histories.old.nodes.items at ≡ some h
        → HasFired context.now.run.now histories.old histories.new at result h }
    ensures remembers { Remembers (C.memory context.now.openings.now) scratch.new }
{
    let history = &histories.nodes[at];
    let (node, fired) = (history.node, history.fired);
    let event = NodeEvent::next(node, fired, context.run.design_nodes());
    let due = DueEvent {
        node,
        fired,
        role: event.role,
    };
    depart(context, seat, due);
    prepare(context, seat, due, &mut histories.buffers, scratch);
    let ticket = publish(context, seat, due);
    histories.note(at, due.role, ticket);
    ticket
}

// The flight of the node's next event begins.
fn depart<V: RunValues, C: Compute>(
    context: &Context<V, C>,
    seat: &mut Seat<u8, View>,
    due: DueEvent,
)
    requires table { seat.old.table_id ≡ context.now.board.now.table_id }
    requires idle { (seat.old.me.0.live ≡ true) × (seat.old.me.0.phase ≡ 0)
        × (seat.old.me.0.run ≡ context.now.run.now) }
    requires held { (holds seat.old.me.0 due.node ≡ true)
        × (due.node < context.now.run.now.nodes)
        × (due.fired ≡ seen seat.old.me.0 due.node) }
    requires ready { IsEnabledInRun context.now.run.now (seen seat.old.me.0)
        (next context.now.run.now due.node due.fired) }

    ensures table { (seat.new.table_id ≡ seat.old.table_id) × (seat.new.id ≡ seat.old.id) }
    ensures me { seat.new.me ≡ (after_depart seat.old.me.0 due.node, seat.old.me.1) }
    ensures flight { IsInFlight context.now.run.now seat.new.me.0 due.node
        due.fired }
    ensures unwritten { seat.new.me.0.written ≡ 0 }
{
    context.board.load::<Depart>(seat, due.node + 1);
}

// Draws the ticket of what is in flight, and publishes the count of its node.
fn publish<V: RunValues, C: Compute>(
    context: &Context<V, C>,
    seat: &mut Seat<u8, View>,
    due: DueEvent,
) -> u64
    requires table { seat.old.table_id ≡ context.now.board.now.table_id }
    requires flight { IsInFlight context.now.run.now seat.old.me.0 due.node
        due.fired }
    requires written { HasWritten context.now.run.now seat.old.me.0 due.node
        due.fired }

    ensures table { (seat.new.table_id ≡ seat.old.table_id) × (seat.new.id ≡ seat.old.id) }
    ensures me { seat.new.me
        ≡ (after_publish (after_draw seat.old.me.0 result), seat.old.me.1) }
    ensures fresh { seat.old.me.0.drawn ≤ result }
{
    let ticket = context.board.fetch_add::<Draw>(seat, 0, 1);
    context
        .board
        .store::<Publish>(seat, due.node + 1, due.fired + 1);
    ticket
}

// Gives the node's next value, where its next event is an opening.
fn prepare<V: RunValues, C: Compute>(
    context: &Context<V, C>,
    seat: &mut Seat<u8, View>,
    due: DueEvent,
    buffers: &mut Buffers,
    scratch: &mut Scratch,
)
    requires table { seat.old.table_id ≡ context.now.board.now.table_id }
    requires remembers { Remembers (C.memory context.now.openings.now) scratch.old }
    requires flight { IsInFlight context.now.run.now seat.old.me.0 due.node
        due.fired }
    requires unwritten { seat.old.me.0.written ≡ 0 }
    requires role { IsNextRole context.now.run.now due.node due.fired due.role }
    requires room { HasRoomFor context.now.run.now due.node buffers.old }

    ensures seat { (seat.new.table_id ≡ seat.old.table_id) × (seat.new.id ≡ seat.old.id) }
    ensures me { (n : ℕ) × (seat.new.me ≡ (record seat.old.me.0 { written = n }, seat.old.me.1)) }
    ensures flight { IsInFlight context.now.run.now seat.new.me.0 due.node
        due.fired }
    ensures written { HasWritten context.now.run.now seat.new.me.0 due.node
        due.fired }
    ensures told { buffers.new.told.items
        ≡ new_row context.now.run.now due.node due.fired }
    ensures room { HasSameRoom buffers.old buffers.new }
    ensures remembers { Remembers (C.memory context.now.openings.now) scratch.new }
{
    buffers.told.clear();
    if due.role.opens() {
        let opening = OpeningInFlight {
            node: due.node,
            turn: EventRole::Opening.turns(due.fired) + 1,
        };
        open_row(context, seat, opening, buffers, scratch);
    }
}

// Reads, computes and writes the row of the opening.
fn open_row<V: RunValues, C: Compute>(
    context: &Context<V, C>,
    seat: &mut Seat<u8, View>,
    opening: OpeningInFlight,
    buffers: &mut Buffers,
    scratch: &mut Scratch,
)
    requires table { seat.old.table_id ≡ context.now.board.now.table_id }
    requires remembers { Remembers (C.memory context.now.openings.now) scratch.old }
    requires flight { IsOpening context.now.run.now seat.old.me.0 opening.node opening.turn
        × IsAway context.now.run.now seat.old.me.0 opening.node }
    requires within { (opening.node < context.now.run.now.design_nodes)
        × (opening.turn ≤ context.now.run.now.limit) }
    requires room { HasRoomFor context.now.run.now opening.node buffers.old }
    requires empty { buffers.old.told.items ≡ [] }

    ensures seat { (seat.new.table_id ≡ seat.old.table_id) × (seat.new.id ≡ seat.old.id) }
    ensures me { seat.new.me
        ≡ (
          record seat.old.me.0 { written = width context.now.run.now opening.node },
          seat.old.me.1,
        ) }
    ensures told { buffers.new.told.items ≡ row context.now.run.now opening.node opening.turn }
    ensures room { HasSameRoom buffers.old buffers.new }
    ensures remembers { Remembers (C.memory context.now.openings.now) scratch.new }
{
    let node = opening.node;
    buffers.from.clear();
    let learnt = Learnt {
        scratch: &*scratch,
        turn: opening.turn,
    };
    read_rows(context, &learnt, seat, node, &mut buffers.from);
    let from = buffers.from.as_slice();
    context.openings.compute(
        LatchId::new(node as u32),
        opening.turn,
        from,
        scratch,
        &mut buffers.told,
    );
    let words = buffers.told.as_slice();
    write_row(context, seat, words, node, opening.turn);
}
