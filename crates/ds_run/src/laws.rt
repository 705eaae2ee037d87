//! Laws of the definitions, each the contract of a function that does nothing; the last ones say
//! that what a run writes is put together from its windows.
ghost use Rattle.ds_run.specs.Firings.{FiringsAreLegal, RecordsAreLegal};
ghost use Rattle.ds_run.specs.Laws.{RunsAreAccepted, RunsAreSound, RunsHaveGraphs};
ghost use Rattle.ds_run.specs.Stored.{FabricsShowFirst, RecordsStoreAsFired, StoresAsFired};
ghost use Rattle.ds_run.specs.Windows.{FiringsInWindows};
ghost use Rattle.ds_run.specs.Laws.{EndSpellsRun, LogsGoOn, WindowsSpellRun};

/// The run of a plan is sound.
pub fn runs_are_sound()
    ensures { RunsAreSound }
{}

/// In the run of a plan something can always fire.
pub fn runs_are_accepted()
    ensures { RunsAreAccepted }
{}

/// The graph of a plan is that of its run.
pub fn runs_have_graphs()
    ensures { RunsHaveGraphs }
{}

/// The firings of a record are a legal list, of as many as it counts.
pub fn records_are_legal()
    ensures { RecordsAreLegal }
{}

/// The firings of a run that went to its end are a legal list that has each event once a vector.
pub fn firings_are_legal()
    ensures { FiringsAreLegal }
{}

/// The firings of windows of a run, one after another, are a legal list that has each event once a
/// vector.
pub fn firings_in_windows()
    ensures { FiringsInWindows }
{}

/// Firing reaches, by the firings of a record, a state that has stored of each node what the record
/// tells.
pub fn records_store_as_fired()
    ensures { RecordsStoreAsFired }
{}

/// So it does by the firings of a run that went to its end.
pub fn stores_as_fired()
    ensures { StoresAsFired }
{}

/// The fabric of a run, as it is built, shows the first state of firing.
pub fn fabrics_show_first()
    ensures { FabricsShowFirst }
{}

/// A log that takes window after window is the log of all their turns.
pub fn logs_go_on()
    ensures { LogsGoOn }
{}

/// The lines of all turns and the end of a run are its text.
pub fn end_spells_run()
    ensures { EndSpellsRun }
{}

/// The lines of windows, one after another, and the end of a run are its text.
pub fn windows_spell_run()
    ensures { WindowsSpellRun }
{}
