//! What holds of every state that firings lead to.
ghost use Rattle.ds_fire.specs.Laws.{FiredAfter, FiredIsInRun, FiredToTheEnd, HeldIsShown};
ghost use Rattle.ds_fire.specs.Laws.{StoredSpellTrace};

/// Held and stored rows are those of the clocked run.
pub fn fired_is_in_run()
    ensures { FiredIsInRun }
{}

/// No event may fire exactly where each has fired as often as it may.
pub fn fired_to_the_end()
    ensures { FiredToTheEnd }
{}

/// A firing more is a list with one event more.
pub fn fired_after()
    ensures { FiredAfter }
{}

/// At the end the stored rows spell the trace.
pub fn stored_spell_trace()
    ensures { StoredSpellTrace }
{}

/// Without slack, there is exactly one way to show, and it is what the nodes hold.
pub fn held_is_shown()
    ensures { HeldIsShown }
{}
