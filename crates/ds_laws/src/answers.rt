//! Laws of refused jobs: their line and their status.
ghost use Rattle.ds_laws.specs.Answered.{ExactFaultEarly};
ghost use Rattle.ds_laws.specs.OneLine.{JobsHaveOneLine};

/// A fault is answered by status 1 where no read failed that its stage or one before it needs.
pub fn exact_fault_early()
    ensures { ExactFaultEarly }
{}

/// A job is refused by one line at most, where its files tell what they hold, but for which of
/// several cycles it names.
pub fn jobs_have_one_line()
    ensures { JobsHaveOneLine }
{}
