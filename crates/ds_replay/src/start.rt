//! Where reading begins.
ghost use Rattle.std.specs.Prelude.{◌≡◌, ◌<◌, ◌≤◌, length};
ghost use Rattle.ds_lines.specs.Line.{line_or_none};
ghost use Rattle.ds_replay.specs.Replay.{is_firings as is_firings_line, log_of, start_of};

use ds_lines::Lines;

/// The place behind the first line that is the one word `firings`; the first place where there is
/// none.
pub fn start(lines: &Lines<'_>) -> usize
    ensures value { result ≡ start_of lines.now }
    ensures within { result ≤ length lines.now }
{
    for i in 0..lines.count() {
        if is_firings(lines, i) {
            return i + 1;
        }
    }
    0
}

/// How many lines of a log are read, each of which is a firing where the log is replayed.
pub fn firings(lines: &Lines<'_>) -> usize
    ensures { result ≡ length (log_of lines.now) }
{
    lines.count() - start(lines)
}

// Whether a line is the one word `firings`.
fn is_firings(lines: &Lines<'_>, i: usize) -> bool
    requires { i < length lines.now }
    ensures { result ≡ is_firings_line (line_or_none lines.now i) }
{
    lines.words(i) == 1 && lines.word(i, 0) == b"firings".as_slice()
}
