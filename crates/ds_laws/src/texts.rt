//! Laws of what jobs print: it is determined by their files.
ghost use Rattle.ds_laws.specs.OneText.{JobsHaveOneText, RunsPrintTheClockedTrace};
ghost use Rattle.ds_laws.specs.OneTrace.{LoggedRunsHaveOneTrace};

/// A job has one text at most, where its files tell what they hold. Nothing is said of `run` with
/// `--log` or `--stop`, whose workers decide what fires when, and nothing of `period`.
pub fn jobs_have_one_text()
    ensures { JobsHaveOneText }
{}

/// `run` prints what `clock` prints of the same netlist and vectors, whatever the workers, the
/// clusters, the graph and the slack are.
pub fn runs_print_the_clocked_trace()
    ensures { RunsPrintTheClockedTrace }
{}

/// What `run --log` prints of the same netlist and vectors, whatever the workers, the clusters, the
/// graph and the slack are, is one trace, that which `clock` prints, and behind it a log of a legal
/// list that has each event once a vector.
pub fn logged_runs_have_one_trace()
    ensures { LoggedRunsHaveOneTrace }
{}
