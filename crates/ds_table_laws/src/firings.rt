//! A law of legal lists.
ghost use Rattle.ds_table_laws.specs.Firings.{LegalListsExist};

/// A live graph has a legal list of as many firings as are wanted, up to one a turn of each event;
/// the longest has each event once a turn.
pub fn legal_lists_exist()
    ensures { LegalListsExist }
{}
