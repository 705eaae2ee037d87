//! Runs of designs that are made from a number.
use ds_outside::OpenGate;
use ds_trial::{Wanted, gives, play, printed};
use std::test::Fail;

// Two sizes, each by one, two, eight and 64 workers.
const SUMS: &str = "%$ desync demo 0 2 3 --jobs 1
%$ desync demo 0 2 3 --jobs 2
%$ desync demo 0 2 3 --jobs 8
%$ desync demo 0 2 3 --jobs 64
%= 0
turns 3
firings 36
ones 1
fold 23695
%$ desync demo 0 2 0 --jobs 1
%$ desync demo 0 2 0 --jobs 2
%$ desync demo 0 2 0 --jobs 8
%$ desync demo 0 2 0 --jobs 64
%= 0
turns 0
firings 0
ones 0
fold 1347
";

#[test]
fn demonstrations_have_their_summaries(rt: HostRuntime) -> Result<(), Fail> {
    play(&rt, SUMS, 8)
}

// Seven registers have 16 nodes, so few that eight workers fire.
#[test]
fn eight_workers_sum_up_as_one_does(rt: HostRuntime) -> Result<(), Fail> {
    let Some(text) = printed(&rt, &[], "desync demo 1 7 1000", &OpenGate) else {
        panic!(rt; "no summary");
    };
    assert!(rt;
        text.as_str()
            .starts_with("turns 1000\nfirings 32000\nones ")
    );
    let wanted = Wanted {
        status: 0,
        text: text.as_str(),
    };
    assert!(rt; gives(&rt, &[], "desync demo 1 7 1000 --jobs 8", wanted)?);
    Ok(())
}

// Sizes past the limits.
const SIZES: &str = "%$ desync demo 0 0 1
%$ desync demo 0 4097 1
%$ desync demo 0 1 65537
%$ desync demo 18446744073709551616 1 1
%= 2
desync: bad command line
";

#[test]
fn sizes_past_the_limits_are_no_command_line(rt: HostRuntime) -> Result<(), Fail> {
    play(&rt, SIZES, 4)
}
