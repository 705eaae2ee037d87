//! How a pass finds the history of a node: by a list of places where it has many, and without one
//! where it has one.
ghost use Rattle.std.specs.Prelude.{ℕ, List, ◌≡◌, ◌↔◌, ◌<◌, ◌≤◌, ◌+◌, [], ◌∷◌, true, length, take};
ghost use Rattle.std.specs.Prelude.{slice_index, IfOk, IsTrue, vec_len, vec_capacity};
ghost use mathlib.Core.Option.{some};
ghost use lib.ListN.{get_elem?};
ghost use Rattle.ds_fabric.specs.Indexed.{IsIndexed, IsOneEach, AreBelow, IsTakenOut, IsHistoryAt};
ghost use Rattle.ds_fabric.specs.Indexed.{IsWithout};
ghost use Rattle.ds_fabric.specs.declared.history.History.{History};

use crate::history::History;
use crate::index::zeros;
use ds_base::OutOfMemory;
use std::alloc::Global;

/// Where the history of a node stands that is there. A place is one more than the number of a
/// history, and 0 where there is none; where there is room for one history alone, there are no
/// places.
pub fn find(nodes: &[History], places: &[usize], node: usize) -> usize
    requires indexed { (many : ℕ) × (room : ℕ)
        × IsIndexed many room (length nodes.now) nodes.now places.now }
    requires there { (i : ℕ) × IsHistoryAt nodes.now i node }
    ensures { IsHistoryAt nodes.now result node }
{
    if places.len() == 0 {
        0
    } else {
        places[node] - 1
    }
}

/// The history of the node is there.
pub fn has(nodes: &[History], places: &[usize], node: usize) -> bool
    requires { (many : ℕ) × (room : ℕ)
        × IsIndexed many room (length nodes.now) nodes.now places.now × (node < many) }
    ensures { IsTrue result ↔ ((i : ℕ) × IsHistoryAt nodes.now i node) }
{
    if places.len() == 0 {
        if nodes.len() == 0 {
            false
        } else {
            if nodes[0].node == node { true } else { false }
        }
    } else {
        if 0 < places[node] { true } else { false }
    }
}

/// The places of histories that stand in the order of their nodes.
pub fn numbered(alloc: Global, count: usize) -> Result<Vec<usize>, OutOfMemory>
    requires { count < 4294967296 }
    ensures { IfOk result (λ v. (length v.items ≡ count)
        × ((i : ℕ) → i < count → slice_index v.items i ≡ i + 1)) }
{
    let mut places = Vec::new(alloc);
    for i in 0..count {
        places.push(i + 1)?;
    }
    Ok(places)
}

/// The places of one history alone.
pub fn alone(alloc: Global, count: usize, node: usize, room: u32) -> Result<Vec<usize>, OutOfMemory>
    requires { (node < count) × (0 < room) × (count < 4294967296) }
    ensures { IfOk result (λ v. (h : History) → h.node ≡ node
        → IsIndexed count room 1 (h ∷ []) v.items) }
{
    if room == 1 {
        return Ok(Vec::new(alloc));
    }
    let mut places = zeros(alloc, count)?;
    places[node] = 1;
    Ok(places)
}

/// Takes a history out; the last one comes to its place.
pub fn take_out(nodes: &mut Vec<History>, places: &mut Vec<usize>, at: usize) -> History
    requires indexed { (many : ℕ) × (room : ℕ)
        × IsIndexed many room (length nodes.old.items) nodes.old.items places.old.items }
    requires distinct { IsOneEach nodes.old.items }
    requires near { at < vec_len nodes.old }

    ensures value { get_elem? nodes.old.items at ≡ some result }
    ensures without { IsWithout nodes.old.items nodes.new.items at }
    ensures indexed { (many room : ℕ)
        → IsIndexed many room (length nodes.old.items) nodes.old.items places.old.items
        → IsIndexed many room (length nodes.new.items) nodes.new.items places.new.items }
    ensures room { vec_capacity nodes.new ≡ vec_capacity nodes.old }
{
    let history = nodes.swap_remove(at);
    forget(nodes.as_slice(), places, history.node, at);
    history
}

// The node has no place any more; what stands where its history stood has.
fn forget(nodes: &[History], places: &mut Vec<usize>, node: usize, at: usize)
    requires { (many : ℕ) × (room : ℕ) × (old : List History) × IsTakenOut old nodes.now at node
        × IsIndexed many room (length old) old places.old.items }
    ensures { (many room : ℕ) (old : List History) → IsTakenOut old nodes.now at node
        → IsIndexed many room (length old) old places.old.items
        → IsIndexed many room (length nodes.now) nodes.now places.new.items }
{
    if places.len() == 0 {
        return;
    }
    places[node] = 0;
    if at < nodes.len() {
        places[nodes[at].node] = at + 1;
    }
}

/// Notes the places of the histories from `first` on.
pub fn note_from(nodes: &[History], places: &mut Vec<usize>, first: usize)
    requires indexed { (many : ℕ) × (room : ℕ)
        × IsIndexed many room first nodes.now places.old.items × (length nodes.now ≤ room)
        × AreBelow nodes.now many }
    requires distinct { IsOneEach nodes.now }
    requires near { (first ≤ length nodes.now) × (length nodes.now < 4294967296) }
    ensures { (many room : ℕ) → IsIndexed many room first nodes.now places.old.items
        → length nodes.now ≤ room → AreBelow nodes.now many
        → IsIndexed many room (length nodes.now) nodes.now places.new.items }
{
    if places.len() == 0 {
        return;
    }
    for i in first..nodes.len() {
        places[nodes[i].node] = i + 1;
    }
}
