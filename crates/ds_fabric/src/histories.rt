//! The histories of a pass, and the lists in which their words stand.
ghost use Rattle.std.specs.Prelude.{◌≡◌, ◌<◌, ◌≤◌, ◌+◌, ℕ, true, false, cond, length, IfOk, OnErr};
ghost use Rattle.std.specs.Prelude.{OnOk, vec_len, vec_capacity, ◌++◌, ◌∷◌, []};
ghost use Rattle.ds_rule.specs.Run.{Run};
ghost use Rattle.ds_fabric.specs.HistoryList.{IsWritten, list_of_words};
ghost use Rattle.ds_fabric.specs.Indexed.{IsIndexed};
ghost use Rattle.ds_fabric.specs.Joined.{AreJoined, IsGathering};
ghost use Rattle.ds_fabric.specs.Noted.{HasNoted, HasRoomToNote};
ghost use Rattle.ds_fabric.specs.Separated.{AreSeparated, AreCopies, AreWide, IsOwn, IsWide};

use crate::buffers::Buffers;
use crate::history::History;
use crate::places::note_from;
use ds_base::OutOfMemory;
use ds_rule::EventRole;
use std::alloc::Global;

/// The histories of a pass, the place of each node's history among them, the list of all their
/// words where no history has a list of its own, and room for a firing.
pub struct Histories {
    pub nodes: Vec<History>,
    pub places: Vec<usize>,
    pub apart: bool,
    pub together: Vec<u64>,
    pub buffers: Buffers,
}

impl Drop for Histories {
    fn drop(self) {
        let Histories {
            nodes: _,
            places: _,
            apart: _,
            together: _,
            buffers: _,
        } = self;
    }
}

impl Histories {
    /// The list in which the words of one of the histories stand.
    pub fn words<'a>(&'a self, history: &'a History) -> &'a [u64]
        ensures { result.now ≡ list_of_words self.now history.now }
    {
        if self.apart {
            history.own.as_slice()
        } else {
            self.together.as_slice()
        }
    }

    /// Keeps what the next event of a node told: what stands in `told`, and behind it the ticket.
    pub fn note(&mut self, at: usize, role: EventRole, ticket: u64)
        requires near { at < vec_len self.old.nodes }
        requires room { (run : Run) × HasRoomToNote run self.old at role }
        ensures { (run : Run) → HasRoomToNote run self.old at role
            → HasNoted run self.old self.new at ticket }
    {
        let told = self.buffers.told.as_slice();
        let history = &mut self.nodes[at];
        let (start, end) = history.span(role);
        history.fired += 1;
        if self.apart {
            write_at(&mut history.own, start, end, told, ticket);
        } else {
            write_at(&mut self.together, start, end, told, ticket);
        }
    }

    /// Gives each history a list of its own, of the words of all turns that have begun.
    pub fn separate(&mut self, alloc: Global, limit: usize) -> Result<(), OutOfMemory>
        requires wide { AreWide limit self.old }
        ensures ok { OnOk result (AreSeparated limit self.old self.new) }
        ensures same { OnErr result (self.new ≡ self.old) }
    {
        if self.apart {
            return Ok(());
        }
        let nodes = self.copies(alloc, limit)?;
        self.nodes = nodes;
        self.apart = true;
        self.together = Vec::new(alloc);
        Ok(())
    }

    // The histories, each with a list of its own.
    fn copies(&self, alloc: Global, limit: usize) -> Result<Vec<History>, OutOfMemory>
        requires together { self.now.apart ≡ false }
        requires wide { AreWide limit self.now }
        ensures ok { IfOk result (λ v. AreCopies limit self.now v.items) }
        ensures room { IfOk result (λ v. vec_capacity self.now.nodes ≤ vec_capacity v) }
    {
        let mut nodes = Vec::with_capacity(alloc, self.nodes.capacity())?;
        for i in 0..self.nodes.len() {
            let history = &self.nodes[i];
            let own = own_words(alloc, history, self.together.as_slice(), limit)?;
            nodes.push(History {
                node: history.node,
                fired: history.fired,
                stride: history.stride,
                first: 0,
                step: history.stride,
                own,
            })?;
        }
        Ok(nodes)
    }

    /// Takes in the histories of another pass.
    pub fn take_in(&mut self, other: Histories)
        requires fits { (many : ℕ) × (room : ℕ) × IsGathering many room self.old other }
        ensures joined { AreJoined self.old other self.new }
        ensures indexed { (many room : ℕ) → IsGathering many room self.old other
            → IsIndexed many room (length self.new.nodes.items) self.new.nodes.items
            self.new.places.items }
    {
        let Histories {
            mut nodes,
            places: _,
            apart,
            together,
            buffers,
        } = other;
        let first = self.nodes.len();
        let Ok(()) = self.nodes.append(&mut nodes) else {
            unreachable!()
        };
        nodes.destroy_empty();
        note_from(self.nodes.as_slice(), &mut self.places, first);
        self.take_words(apart, together);
        self.buffers.widen(buffers);
    }

    // Takes the list of another pass, unless its histories have lists of their own.
    fn take_words(&mut self, apart: bool, together: Vec<u64>)
        ensures same { (self.new.nodes ≡ self.old.nodes) × (self.new.places ≡ self.old.places)
            × (self.new.buffers ≡ self.old.buffers) }
        ensures apart { self.new.apart ≡ cond apart self.old.apart false }
        ensures kept { apart ≡ true → self.new.together ≡ self.old.together }
        ensures taken { apart ≡ false → self.new.together ≡ together }
    {
        if !apart {
            self.apart = false;
            self.together = together;
        }
    }
}

// The words of a history, of all turns that have begun, one behind the other.
fn own_words(
    alloc: Global,
    history: &History,
    words: &[u64],
    limit: usize,
) -> Result<Vec<u64>, OutOfMemory>
    requires wide { IsWide limit history.now }
    ensures { IfOk result (λ v.
        IsOwn limit history.now words.now v.items (vec_capacity v)) }
{
    let stride = history.stride;
    let mut own = Vec::with_capacity(alloc, limit * stride)?;
    for turn in 0..words.len() / history.step {
        let from = turn * history.step + history.first;
        own.extend_from_slice(&words[from..from + stride])?;
    }
    Ok(own)
}

// Writes words from a place on into a list, and behind them the ticket. The list has then at least
// `end` words.
fn write_at(words: &mut Vec<u64>, start: usize, end: usize, told: &[u64], ticket: u64)
    requires inside { start + length told.now < end }
    requires room { end ≤ vec_capacity words.old }
    ensures written { IsWritten words.old.items words.new.items start end
        (told.now ++ ticket ∷ []) }
    ensures room { vec_capacity words.new ≡ vec_capacity words.old }
{
    for place in words.len()..end {
        words.push_reserved(0);
    }
    let list = words.as_mut_slice();
    for i in 0..told.len() {
        list[start + i] = told[i];
    }
    list[start + told.len()] = ticket;
}
