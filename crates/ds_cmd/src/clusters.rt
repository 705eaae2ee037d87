ghost use Rattle.std.specs.Prelude.{◌≡◌};
ghost use Rattle.clap.specs.Words.{found_of, rows_of};
ghost use Rattle.ds_cmd.specs.Clusters.{clusters_of, mode_of};

use crate::argument::text;
use clap::ArgMatches;
use ds_base::Mode;

/// How registers are put into clusters: as the option `--clusters` says, and without it each
/// register into one of its own. `None` where there is no such mode.
pub fn clusters(values: &ArgMatches<'_>) -> Option<Mode>
    ensures { result ≡ clusters_of (rows_of (found_of values.now)) }
{
    match text(values, "clusters") {
        Some(word) => mode(word),
        None => Some(Mode::Each),
    }
}

// The mode of a word.
fn mode(word: &str) -> Option<Mode>
    ensures { result ≡ mode_of word.now }
{
    if word == "each" {
        Some(Mode::Each)
    } else if word == "one" {
        Some(Mode::One)
    } else if word == "bus" {
        Some(Mode::Bus)
    } else {
        None
    }
}
