//! Command lines with the jobs that they ask for, as lines of a text.
use crate::command_words::first_other;

// Each line, and its job.
const TAKEN: &str = "\
d|run|n|v -> run|n|v|none|each|1|false|0|none|none
d|clock|n|v -> clock|n|v
d|check|n -> check|n
d|graph|n -> graph|n|each|0|false|none
d|replay|n|v|l -> replay|n|v|l|none|each|0|false|none
d|replay|n|--clusters=one|v|- -> replay|n|v|-|none|one|0|false|none
d|run|n|v|--graph|g -> run|n|v|g|each|1|false|0|none|none
d|run|--graph=-|n|v|--clusters=bus -> run|n|v|-|bus|1|false|0|none|none
d|replay|n|v|l|--graph=g -> replay|n|v|l|g|each|0|false|none
d|accept|n|g -> accept|n|g|each|0|none
d|accept|n|--clusters|one|g -> accept|n|g|one|0|none
d|period|n|d -> period|n|d|none|each|0|none
d|period|--clusters=bus|n|- -> period|n|-|none|bus|0|none
# The name of the program says nothing.
|check|n -> check|n
run|check|n -> check|n
# Names of files: empty, `-`, the name of a command.
d|run||v -> run||v|none|each|1|false|0|none|none
d|run|-|v -> run|-|v|none|each|1|false|0|none|none
d|run|run|run -> run|run|run|none|each|1|false|0|none|none
d|run|help|v -> run|help|v|none|each|1|false|0|none|none
# The word `--`: what stands behind it is a file.
d|run|--|-n|v -> run|-n|v|none|each|1|false|0|none|none
d|run|n|--|v -> run|n|v|none|each|1|false|0|none|none
d|run|n|v|-- -> run|n|v|none|each|1|false|0|none|none
d|check|--|-- -> check|--
# Options stand anywhere behind the command's name.
d|run|n|v|--clusters|one -> run|n|v|none|one|1|false|0|none|none
d|run|--clusters=bus|n|v -> run|n|v|none|bus|1|false|0|none|none
d|graph|n|--clusters|each -> graph|n|each|0|false|none
d|graph|--clusters|bus|n -> graph|n|bus|0|false|none
# The expansion of a graph.
d|graph|n|--shake -> graph|n|each|0|true|none
d|graph|--shake|n|--clusters=bus -> graph|n|bus|0|true|none
d|graph|--clusters|one|--shake|n -> graph|n|one|0|true|none
# Behind `--` there are no options.
d|graph|--|--clusters -> graph|--clusters|each|0|false|none
d|graph|--|--shake -> graph|--shake|each|0|false|none
d|run|n|--|--log -> run|n|--log|none|each|1|false|0|none|none
# Threads, 1 to 64, in one to twenty digits; the log.
d|run|n|v|--jobs|3 -> run|n|v|none|each|3|false|0|none|none
d|run|n|v|--jobs=1 -> run|n|v|none|each|1|false|0|none|none
d|run|n|v|--jobs|64 -> run|n|v|none|each|64|false|0|none|none
d|run|n|v|--jobs|064 -> run|n|v|none|each|64|false|0|none|none
d|run|n|v|--jobs|00000000000000000007 -> run|n|v|none|each|7|false|0|none|none
d|run|n|v|--log -> run|n|v|none|each|1|true|0|none|none
d|run|--log|n|--jobs=2|v|--graph|g|--clusters=one -> run|n|v|g|one|2|true|0|none|none
# Slack, 0 to 15, in one to twenty digits.
d|run|n|v|--slack|0 -> run|n|v|none|each|1|false|0|none|none
d|run|n|v|--slack|15 -> run|n|v|none|each|1|false|15|none|none
d|run|n|v|--slack=00000000000000000001 -> run|n|v|none|each|1|false|1|none|none
d|run|--slack|3|n|--log|v|--jobs|4|--graph=g -> run|n|v|g|each|4|true|3|none|none
d|run|n|--|--slack -> run|n|--slack|none|each|1|false|0|none|none
d|replay|n|v|l|--slack|2 -> replay|n|v|l|none|each|2|false|none
d|replay|n|--slack=015|v|l|--graph|g|--clusters|bus -> replay|n|v|l|g|bus|15|false|none
d|graph|n|--slack|2 -> graph|n|each|2|false|none
d|graph|--slack=15|--clusters|one|n -> graph|n|one|15|false|none
d|graph|n|--slack|0|--shake -> graph|n|each|0|true|none
d|accept|n|g|--slack|3 -> accept|n|g|each|3|none
d|accept|--slack=07|n|--clusters=bus|g -> accept|n|g|bus|7|none
d|period|n|d|--slack|1 -> period|n|d|none|each|1|none
d|period|n|d|--graph|g -> period|n|d|g|each|0|none
d|period|--graph=g|n|--slack|15|d|--clusters|one -> period|n|d|g|one|15|none
# Open latches, without slack.
d|replay|n|v|l|--transparent -> replay|n|v|l|none|each|0|true|none
d|replay|--transparent|n|v|l|--slack|00 -> replay|n|v|l|none|each|0|true|none
d|replay|n|v|--|--transparent -> replay|n|v|--transparent|none|each|0|false|none
# A stop, any number of 64 bits in one to twenty digits.
d|run|n|v|--stop|0 -> run|n|v|none|each|1|false|0|0|none
d|run|n|v|--stop=5 -> run|n|v|none|each|1|false|0|5|none
d|run|n|v|--stop|0032 -> run|n|v|none|each|1|false|0|32|none
d|run|n|v|--stop|18446744073709551615 -> run|n|v|none|each|1|false|0|18446744073709551615|none
d|run|n|v|--stop=00000000000000000020 -> run|n|v|none|each|1|false|0|20|none
d|run|--stop|7|n|--jobs=4|v|--log|--slack|2|--graph|g -> run|n|v|g|each|4|true|2|7|none
d|run|n|v|--stop|3|--clusters|bus -> run|n|v|none|bus|1|false|0|3|none
d|run|n|--|--stop -> run|n|--stop|none|each|1|false|0|none|none
# Groups of registers, and the clusters that they are in.
d|run|n|v|--groups|f -> run|n|v|none|each|1|false|0|none|f
d|run|--groups=-|n|v|--clusters|bus|--graph|g -> run|n|v|g|bus|1|false|0|none|-
d|graph|n|--groups|f -> graph|n|each|0|false|f
d|graph|--groups=f|n|--shake|--clusters=one -> graph|n|one|0|true|f
d|replay|n|v|l|--groups|f -> replay|n|v|l|none|each|0|false|f
d|replay|--groups|f|n|v|l|--transparent -> replay|n|v|l|none|each|0|true|f
d|accept|n|g|--groups|f|--slack|2 -> accept|n|g|each|2|f
d|period|n|--groups=f|d|--graph|g -> period|n|d|g|each|0|f
d|clusters|n -> clusters|n|each|none
d|clusters|--clusters|bus|n -> clusters|n|bus|none
d|clusters|n|--groups|f -> clusters|n|each|f
d|clusters|--groups=|n|--clusters=one -> clusters|n|one|
d|clusters|--|--groups -> clusters|--groups|each|none
# The period of a graph that stands alone.
d|rate|g|d -> rate|g|d
d|rate|-|d -> rate|-|d
d|rate|--|-g|--slack -> rate|-g|--slack
# A timed run, of 0 to 65,536 turns in one to twenty digits.
d|times|n|d|2 -> times|n|d|2|none|each|0|none
d|times|n|d|0 -> times|n|d|0|none|each|0|none
d|times|n|d|65536 -> times|n|d|65536|none|each|0|none
d|times|n|d|00000000000000065536 -> times|n|d|65536|none|each|0|none
d|times|n|d|7|--graph|g|--clusters|bus|--groups|f|--slack|15 -> times|n|d|7|g|bus|15|f
d|times|--slack=1|n|--graph=g|d|--clusters=one|7 -> times|n|d|7|g|one|1|none
d|times|n|--|--slack|7 -> times|n|--slack|7|none|each|0|none
# The demonstration, up to its limits.
d|demo|0|1|0 -> demo|0|1|0|1
d|demo|7|4096|65536 -> demo|7|4096|65536|1
d|demo|18446744073709551615|10|9 -> demo|18446744073709551615|10|9|1
d|demo|01|002|0003|--jobs|4 -> demo|1|2|3|4
d|demo|--jobs=64|5|6|--|7 -> demo|5|6|7|64
";

#[test]
fn command_lines_are_taken(rt: HostRuntime) {
    assert_eq!(rt; first_other(rt.alloc(), TAKEN, ""), None);
}
