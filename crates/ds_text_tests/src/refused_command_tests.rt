//! Lines that are no command line, as lines of texts, each text for one fault.
use crate::command_words::first_other;

// Lines that are no command line.
const REFUSED: &str = "\
# Too few words, too many.

d
d|
d|run
d|run|n
d|run|n|v|x
d|check|n|v
d|replay|n|v
d|replay|n|v|l|x
run|n|v
# An option twice, without its value, before the command's name; options of no command.
d|graph|n|--clusters|one|--clusters|one
d|graph|n|--clusters
d|run|n|v|--graph
d|graph|n|--graph|g
d|accept|n
d|accept|n|g|--graph|g
d|period|n
d|period|n|d|x
d|period|n|d|--graph
d|period|n|d|--graph|g|--graph|g
d|--clusters=one|graph|n
d|check|n|--clusters|one
d|run|-n|v
d|--jobs=3|run|n|v
d|--log|run|n|v
d|run|n|v|--jobs
d|run|n|v|--jobs|1|--jobs|1
d|run|n|v|--log|--log
d|run|n|v|--log=x
d|run|n|v|--log=true
d|run|n|v|--jobs|-1
d|clock|n|v|--jobs|1
d|replay|n|v|l|--log
d|demo|1|2
d|demo|1|2|3|4
d|demo|1|2|3|--log
d|demo|1|2|3|--clusters|one
d|demo|-1|2|3
d|run|n|v|--slack
d|run|n|v|--slack|1|--slack|1
d|run|n|v|--slack|-1
d|replay|n|v|l|--slack
d|replay|n|v|l|--slack=2|--slack=2
d|--slack=1|run|n|v
d|clock|n|v|--slack|1
d|check|n|--slack|1
d|graph|n|--slack
d|accept|n|g|--slack|1|--slack|1
d|period|n|d|--slack
d|demo|1|2|3|--slack|1
d|run|n|v|--stop
d|run|n|v|--stop|1|--stop|1
d|run|n|v|--stop|1|--stop|2
d|run|n|v|--stop=1|--stop|x
d|run|n|v|--stop|-1
d|run|n|v|--stop|--log
d|--stop=1|run|n|v
d|--stop|1|run|n|v
d|clock|n|v|--stop|1
d|check|n|--stop|1
d|graph|n|--stop|1
d|replay|n|v|l|--stop|1
d|accept|n|g|--stop|1
d|period|n|d|--stop|1
d|demo|1|2|3|--stop|1
d|replay|n|v|l|--transparent|--transparent
d|replay|n|v|l|--transparent=true
d|replay|n|v|l|--transparent=
d|replay|n|v|l|--transparent|true
d|--transparent|replay|n|v|l
d|run|n|v|--transparent
d|accept|n|g|--transparent
d|graph|n|--shake|--shake
d|graph|n|--shake=x
d|graph|n|--shake=true
d|graph|n|--shake=
d|graph|n|--shake|true
d|--shake|graph|n
d|run|n|v|--shake
d|clock|n|v|--shake
d|check|n|--shake
d|replay|n|v|l|--shake
d|accept|n|g|--shake
d|demo|1|2|3|--shake
d|period|n|d|--shake
d|clusters
d|clusters|n|v
d|clusters|n|--groups
d|clusters|n|--groups|f|--groups|f
d|clusters|n|--graph|g
d|clusters|n|--slack|1
d|clusters|n|--shake
d|--groups=f|clusters|n
d|run|n|v|--groups
d|graph|n|--groups|f|--groups=f
d|clock|n|v|--groups|f
d|check|n|--groups|f
d|demo|1|2|3|--groups|f
d|rate
d|rate|g
d|rate|g|d|x
d|rate|g|d|--slack|1
d|rate|g|d|--graph|g
d|rate|g|d|--clusters|one
d|rate|-g|d
d|times
d|times|n|d
d|times|n|d|1|x
d|times|n|d|-1
d|times|n|d|1|--slack
d|times|n|d|1|--slack|1|--slack|1
d|times|n|d|1|--graph
d|times|n|d|1|--groups
d|times|n|d|1|--shake
d|times|n|d|1|--jobs|2
d|--slack=1|times|n|d|1
# The words come before the numbers and the mode.
d|times|n|d|x|y|--clusters|two
d|run|n|--jobs|0|--clusters|two
d|run|n|v|x|--jobs|65
d|demo|x|0
d|run|n|v|--|-x
d|--|run|n|v
# Other commands, shortened names, another case.
d|ru|n|v
d|RUN|n|v
# Help and the version.
d|help
d|--help
d|run|-h
d|run|n|v|--help
d|--version
";

// Lines with a number out of form or range, whatever the mode is.
const NUMBERS: &str = "\
# Threads.
d|run|n|v|--jobs|0
d|run|n|v|--jobs|65
d|run|n|v|--jobs|+1
d|run|n|v|--jobs|
d|run|n|v|--jobs=
d|run|n|v|--jobs|1 
d|run|n|v|--jobs|a
d|run|n|v|--jobs|000000000000000000001
d|run|n|v|--jobs|18446744073709551617
d|run|n|v|--jobs|0|--clusters|two
d|run|n|v|--clusters|two|--jobs|0
# Slack, whatever else is wrong with the mode.
d|run|n|v|--slack|16
d|run|n|v|--slack|016
d|run|n|v|--slack|+1
d|run|n|v|--slack=-1
d|run|n|v|--slack=
d|run|n|v|--slack|
d|run|n|v|--slack|x
d|run|n|v|--slack|1.0
d|run|n|v|--slack|256
d|run|n|v|--slack|000000000000000000001
d|run|n|v|--slack|18446744073709551616
d|run|n|v|--slack|16|--clusters|two
d|replay|n|v|l|--slack|16
d|replay|n|v|l|--slack=
d|replay|n|v|l|--slack|16|--transparent
d|replay|n|v|l|--clusters|two|--slack|x
d|graph|n|--slack|16
d|graph|n|--slack|16|--shake
d|accept|n|g|--slack|x
d|period|n|d|--slack=-1
d|period|n|d|--clusters|two|--slack|16
d|times|n|d|1|--slack|16
d|times|n|d|1|--slack|x|--clusters|two
# The stop, whatever else is wrong with the mode.
d|run|n|v|--stop|x
d|run|n|v|--stop|+1
d|run|n|v|--stop=-1
d|run|n|v|--stop=
d|run|n|v|--stop|
d|run|n|v|--stop|1 
d|run|n|v|--stop|1.0
d|run|n|v|--stop|0x10
d|run|n|v|--stop|-
d|run|n|v|--stop|18446744073709551616
d|run|n|v|--stop|99999999999999999999
d|run|n|v|--stop|000000000000000000000
d|run|n|v|--stop|000000000000000000001
d|run|n|v|--stop|0|--jobs|65
d|run|n|v|--stop|0|--slack|16
d|run|n|v|--stop|x|--clusters|two
# The seed.
d|demo|18446744073709551616|1|0
d|demo|000000000000000000000|1|0
d|demo|+1|1|0
d|demo||1|0
d|demo|-|1|0
# The registers.
d|demo|0|0|0
d|demo|0|4097|0
d|demo|0|4294967297|0
# The turns, and the threads behind them.
d|demo|0|1|65537
d|demo|0|1|x
d|times|n|d|65537
d|times|n|d|x
d|times|n|d|+1
d|times|n|d|
d|times|n|d|1.0
d|times|n|d|000000000000000000000
d|times|n|d|18446744073709551617
d|times|n|d|x|--clusters|two
d|demo|0|1|0|--jobs|65
";

// Lines with another mode than the three, or with open latches or an expansion beside slack.
const MODES: &str = "\
d|run|n|v|--clusters|two
d|run|n|v|--clusters|two|--jobs|2
d|graph|n|--clusters=
d|graph|n|--clusters|EACH
d|graph|n|--shake|--clusters|two
d|period|n|d|--clusters|two
d|graph|n|--clusters|each,one
d|run|n|v|--clusters|two|--slack|2
d|run|n|v|--clusters|two|--stop|2
d|replay|n|v|l|--transparent|--slack|1
d|replay|n|v|l|--slack|15|--transparent
d|replay|n|v|l|--transparent|--clusters|two
d|graph|n|--shake|--slack|1
d|graph|n|--slack|15|--shake
d|accept|n|g|--slack|1|--clusters|two
d|period|n|d|--slack|1|--clusters|two
d|clusters|n|--clusters|two
d|times|n|d|1|--clusters|two
d|times|n|d|0|--slack|1|--clusters=
d|clusters|n|--groups|f|--clusters=
";

#[test]
fn other_lines_are_refused(rt: HostRuntime) {
    assert_eq!(rt; first_other(rt.alloc(), REFUSED, "line"), None);
}

#[test]
fn numbers_out_of_form_or_range_are_refused(rt: HostRuntime) {
    assert_eq!(rt; first_other(rt.alloc(), NUMBERS, "number"), None);
}

#[test]
fn there_are_three_modes(rt: HostRuntime) {
    assert_eq!(rt; first_other(rt.alloc(), MODES, "mode"), None);
}
