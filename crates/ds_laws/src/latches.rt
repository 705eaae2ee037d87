//! Laws of the latches.
ghost use Rattle.ds_laws.specs.Latches.{ReadRowsStay, StoredAreThere};

/// Where every event has fired once a vector, the registers that are stored are the clocked ones.
pub fn stored_are_there()
    ensures { StoredAreThere }
{}

/// Until an open node closes, what it has read of a producer stays.
pub fn read_rows_stay()
    ensures { ReadRowsStay }
{}
