//! How often each event has fired.
ghost use Rattle.std.specs.Prelude.{◌≡◌, ◌+◌, ◌-◌, ◌<◌, ◌^◌, length, replicate, slice_index};
ghost use Rattle.std.specs.Prelude.{slice_set, IfOk};

use ds_base::{EventId, OutOfMemory};
use std::alloc::Global;
use std::marker::Model;

/// A count of firings for each event. Contracts see the list of the counts.
#[derive(Drop)]
pub struct Counts {
    counts: Vec<u64>,
}

impl Model for Counts {
    ghost use Rattle.std.specs.Prelude.{List, ℕ};

    ghost Value = { List ℕ };

    ghost view = { λ c. c.counts.items };
}

impl Counts {
    /// Of so many events, none of which has fired.
    pub fn zero(alloc: Global, n: usize) -> Result<Self, OutOfMemory>
        ensures { IfOk result (λ c. c ≡ replicate n 0) }
    {
        Ok(Counts {
            counts: vec![in alloc; 0; n]?,
        })
    }

    /// Begins anew: no event has fired.
    pub fn begin(&mut self)
        ensures { self.new ≡ replicate (length self.old) 0 }
    {
        self.counts.fill(0);
    }

    /// How many events there are.
    pub fn len(&self) -> usize
        ensures { result ≡ length self.now }
    {
        self.counts.len()
    }

    /// How often an event has fired.
    pub fn at(&self, event: EventId) -> u64
        requires { event < length self.now }
        ensures { result ≡ slice_index self.now event }
    {
        self.counts[event.index()]
    }

    /// An event fires once more.
    pub fn add_one(&mut self, event: EventId)
        requires inside { event < length self.old }
        requires room { slice_index self.old event < 2 ^ 64 - 1 }
        ensures { self.new ≡ slice_set self.old event (slice_index self.old event + 1) }
    {
        self.counts[event.index()] += 1;
    }
}
