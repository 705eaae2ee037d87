//! Laws of texts: of each kind there is one.
ghost use Rattle.ds_table_laws.specs.Texts.{LogsExist, RunTextsExist, StateTextsExist};
ghost use Rattle.ds_table_laws.specs.Texts.{StoppedTextsExist, ReplayTextsExist};

/// A legal list of firings has a log.
pub fn logs_exist()
    ensures { LogsExist }
{}

/// A run has a text, with and without its log.
pub fn run_texts_exist()
    ensures { RunTextsExist }
{}

/// The state that a legal list leads to has a text.
pub fn state_texts_exist()
    ensures { StateTextsExist }
{}

/// A run that stops has a text, wherever it stops and however many workers there are.
pub fn stopped_texts_exist()
    ensures { StoppedTextsExist }
{}

/// A legal log that is replayed has a text, and one with what open latches show where there is no
/// slack.
pub fn replay_texts_exist()
    ensures { ReplayTextsExist }
{}
