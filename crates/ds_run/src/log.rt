//! The firings of a run, as lines. A log takes the firings of a run as they are known, and counts
//! how often each event has fired as it writes them.
ghost use Rattle.std.specs.Prelude.{◌≡◌, ◌<◌, ℕ, List, [], All, IfOk, OnErr, OnOk, length};
ghost use Rattle.std.specs.Prelude.{replicate};
ghost use Rattle.ds_outside.specs.Pen.{Puts};
ghost use Rattle.ds_run.specs.Left.{IsLogOfRecord};
ghost use Rattle.ds_run.specs.Logged.{IsLogText, IsLonger, PutsLog};
ghost use Rattle.ds_run.specs.Finished.{IsFinished};

use crate::laws::firings_are_legal;
use crate::window::RunWindow;
use ds_base::{EventId, OutOfMemory};
use ds_fabric::Record;
use ds_latch::Plan;
use ds_marked::Counts;
use ds_outside::Pen;
use ds_rows::put_firing;
use std::alloc::Global;
use std::marker::Model;

/// The firings of a run so far, the first one first. Contracts see their events, and how many
/// events there is a count for.
pub struct Log {
    events: Vec<EventId>,
    // By which the firings are counted as they are written.
    counts: Counts,
}

impl Drop for Log {
    fn drop(self) {
        let Log {
            events: _,
            counts: _,
        } = self;
    }
}

impl Model for Log {
    ghost use Rattle.std.specs.Prelude.{length};
    ghost use Rattle.ds_run.specs.Logged.{Listed};

    ghost Value = { Listed };

    ghost view = { λ log. record { events = log.events.items; kinds = length log.counts } };
}

impl Log {
    /// Before the first firing of a plan.
    pub fn new(alloc: Global, plan: &Plan<'_>) -> Result<Self, OutOfMemory>
        ensures { IfOk result (λ log. log ≡ record {
          events = [];
          kinds = length plan.now.graph.events;
        }) }
    {
        Ok(Log {
            events: Vec::new(alloc),
            counts: Counts::zero(alloc, plan.graph().events().len())?,
        })
    }

    /// Of a record of firings.
    pub(crate) fn of_record(
        alloc: Global,
        plan: &Plan<'_>,
        recorded: &Record,
    ) -> Result<Self, OutOfMemory>
        ensures { IfOk result (IsLogOfRecord plan.now.graph recorded.now) }
    {
        Ok(Log {
            events: recorded.firings(alloc)?,
            counts: Counts::zero(alloc, plan.graph().events().len())?,
        })
    }

    /// Takes the firings of a window that was run to its end, behind those that it has.
    pub(crate) fn take(
        &mut self,
        alloc: Global,
        window: &RunWindow<'_, '_>,
        recorded: &Record,
    ) -> Result<(), OutOfMemory>
        requires finished_run { IsFinished window.now.plan.now window.now.vectors.now.rows
            recorded.now }
        ensures ok { OnOk result (IsLonger window.now.plan.now.graph
            (length window.now.vectors.now.rows) self.old self.new) }
        ensures same { OnErr result (self.new ≡ self.old) }
    {
        firings_are_legal();
        let fired = recorded.firings(alloc)?;
        self.events.extend_from_slice(fired.as_slice())?;
        Ok(())
    }

    /// Writes the line `firings` and a line for each firing.
    pub(crate) fn write<P: Pen>(&mut self, plan: &Plan<'_>, pen: &mut P)
        requires log { All (λ event. event < length plan.now.graph.events) self.old.events }
        requires kinds { self.old.kinds ≡ length plan.now.graph.events }
        ensures writes { (text : List ℕ) × IsLogText plan.now.graph self.old.events text
            × Puts (P.writing pen.old) (P.writing pen.new) text }
        ensures same { self.new ≡ self.old }
    {
        self.counts.begin();
        pen.put(b"firings\n");
        put_firings(plan, self.events.as_slice(), &mut self.counts, pen);
    }
}

// Writes a line for each firing.
fn put_firings<P: Pen>(plan: &Plan<'_>, events: &[EventId], counts: &mut Counts, pen: &mut P)
    requires log { All (λ event. event < length plan.now.graph.events) events.now }
    requires counts { counts.old ≡ replicate (length plan.now.graph.events) 0 }
    ensures writes { PutsLog (P.writing pen.old) (P.writing pen.new) plan.now.graph events.now }
    ensures same_kinds { length counts.new ≡ length counts.old }
{
    for i in 0..events.len() {
        let event = events[i];
        counts.add_one(event);
        put_firing(plan, event, counts.at(event), pen);
    }
}
