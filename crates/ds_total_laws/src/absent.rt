//! The law of files that are not there.
ghost use Rattle.ds_total_laws.specs.Absent.{AbsentFilesAreUnread};

/// A call one of whose files is not there has status 3, or 4; or status 1, where a stage refuses
/// that comes before each file that is not there.
pub fn absent_files_are_unread()
    ensures { AbsentFilesAreUnread }
{}
