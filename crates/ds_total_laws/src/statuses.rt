//! The law that statuses are told.
ghost use Rattle.ds_total_laws.specs.Statuses.{StatusesAreTold};

/// A call whose files are there and tell what they hold, and none of whose reads and writes of its
/// text failed, has status 0 and all its text written, or status 1 and a line that refuses it, or
/// it wants memory.
pub fn statuses_are_told()
    ensures { StatusesAreTold }
{}
