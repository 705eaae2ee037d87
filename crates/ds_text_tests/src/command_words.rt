//! Lines of texts, and what is said of them. Words are parted by `|`, the program's name first; so
//! are those of a job, which stands behind ` -> `. A line that begins with `#` says what follows.
use ds_base::Mode;
use ds_cmd::{
    AcceptJob, ClustersJob, DemoJob, FileName, GraphJob, Job, PeriodJob, RateJob, ReplayJob,
    RunJob, TimesJob, UsageFault, parse,
};
use std::alloc::{AllocError, Global};

// A part of a job: a word, or a number.
#[derive(Clone, Copy)]
enum JobPart<'p> {
    Word(&'p str),
    Number(u64),
}

// Whether words stand for these parts, one for each in order.
fn stand_for(words: &[&str], parts: &[JobPart<'_>]) -> bool {
    if words.len() != parts.len() {
        return false;
    }
    for (word, part) in words.iter().zip(parts) {
        let same = match *part {
            JobPart::Word(text) => *word == text,
            JobPart::Number(number) => word.parse::<u64>() == Ok(number),
        };
        if !same {
            return false;
        }
    }
    true
}

// The name of a file.
fn file(name: &FileName) -> JobPart<'_> {
    JobPart::Word(name.as_str())
}

// The name behind an option; `none` where there is none.
fn option(name: &Option<FileName>) -> JobPart<'_> {
    match name {
        Some(name) => file(name),
        None => JobPart::Word("none"),
    }
}

// The word of a mode.
fn mode(mode: &Mode) -> JobPart<'static> {
    JobPart::Word(match mode {
        Mode::Each => "each",
        Mode::One => "one",
        Mode::Bus => "bus",
    })
}

// The word of what is wanted, or is not.
fn wanted(is: bool) -> JobPart<'static> {
    JobPart::Word(if is { "true" } else { "false" })
}

// Whether a job has these words: its own, its files, its mode, its numbers, and what is wanted
// beside.
fn has_words(job: &Job, words: &[&str]) -> bool {
    match job {
        Job::Run(job) => is_run(job, words),
        Job::Clock(job) => stand_for(
            words,
            &[JobPart::Word("clock"), file(&job.net), file(&job.vec)],
        ),
        Job::Check(net) => stand_for(words, &[JobPart::Word("check"), file(net)]),
        Job::Graph(job) => is_graph(job, words),
        Job::Replay(job) => is_replay(job, words),
        Job::Accept(job) => is_accept(job, words),
        Job::Period(job) => is_period(job, words),
        Job::Demo(job) => is_demo(job, words),
        Job::Clusters(job) => is_clusters(job, words),
        Job::Rate(job) => is_rate(job, words),
        Job::Times(job) => is_times(job, words),
    }
}

// Whether these are the words of an accepted graph.
fn is_accept(job: &AcceptJob, words: &[&str]) -> bool {
    let parts = [
        JobPart::Word("accept"),
        file(&job.net),
        file(&job.graph),
        mode(&job.clusters),
        JobPart::Number(job.slack as u64),
        option(&job.groups),
    ];
    stand_for(words, &parts)
}

// Whether these are the words of a period.
fn is_period(job: &PeriodJob, words: &[&str]) -> bool {
    let parts = [
        JobPart::Word("period"),
        file(&job.net),
        file(&job.delays),
        option(&job.graph),
        mode(&job.clusters),
        JobPart::Number(job.slack as u64),
        option(&job.groups),
    ];
    stand_for(words, &parts)
}

// Whether these are the words of a graph.
fn is_graph(job: &GraphJob, words: &[&str]) -> bool {
    let parts = [
        JobPart::Word("graph"),
        file(&job.net),
        mode(&job.clusters),
        JobPart::Number(job.slack as u64),
        wanted(job.shake),
        option(&job.groups),
    ];
    stand_for(words, &parts)
}

// Whether these are the words of a run.
fn is_run(job: &RunJob, words: &[&str]) -> bool {
    let stop = match job.stop {
        Some(stop) => JobPart::Number(stop),
        None => JobPart::Word("none"),
    };
    let parts = [
        JobPart::Word("run"),
        file(&job.net),
        file(&job.vec),
        option(&job.graph),
        mode(&job.clusters),
        JobPart::Number(job.jobs as u64),
        wanted(job.log),
        JobPart::Number(job.slack as u64),
        stop,
        option(&job.groups),
    ];
    stand_for(words, &parts)
}

// Whether these are the words of a replay.
fn is_replay(job: &ReplayJob, words: &[&str]) -> bool {
    let parts = [
        JobPart::Word("replay"),
        file(&job.net),
        file(&job.vec),
        file(&job.log),
        option(&job.graph),
        mode(&job.clusters),
        JobPart::Number(job.slack as u64),
        wanted(job.transparent),
        option(&job.groups),
    ];
    stand_for(words, &parts)
}

// Whether these are the words of a demonstration.
fn is_demo(job: &DemoJob, words: &[&str]) -> bool {
    let parts = [
        JobPart::Word("demo"),
        JobPart::Number(job.seed),
        JobPart::Number(job.registers as u64),
        JobPart::Number(job.turns as u64),
        JobPart::Number(job.jobs as u64),
    ];
    stand_for(words, &parts)
}

// Whether these are the words of clusters.
fn is_clusters(job: &ClustersJob, words: &[&str]) -> bool {
    let parts = [
        JobPart::Word("clusters"),
        file(&job.net),
        mode(&job.clusters),
        option(&job.groups),
    ];
    stand_for(words, &parts)
}

// Whether these are the words of the period of a graph that stands alone.
fn is_rate(job: &RateJob, words: &[&str]) -> bool {
    let parts = [JobPart::Word("rate"), file(&job.graph), file(&job.delays)];
    stand_for(words, &parts)
}

// Whether these are the words of a timed run.
fn is_times(job: &TimesJob, words: &[&str]) -> bool {
    let parts = [
        JobPart::Word("times"),
        file(&job.net),
        file(&job.delays),
        JobPart::Number(job.turns as u64),
        option(&job.graph),
        mode(&job.clusters),
        JobPart::Number(job.slack as u64),
        option(&job.groups),
    ];
    stand_for(words, &parts)
}

// The word of a fault.
fn fault_word(fault: &UsageFault) -> &'static str {
    match fault {
        UsageFault::Line => "line",
        UsageFault::Number => "number",
        UsageFault::Mode => "mode",
        UsageFault::Memory => "another fault",
    }
}

// Whether an answer is said in these words: those of its job, or the word of its fault.
fn is_said(answer: Result<Job, UsageFault>, words: &[&str]) -> bool {
    match &answer {
        Ok(job) => has_words(job, words),
        Err(fault) => stand_for(words, &[JobPart::Word(fault_word(fault))]),
    }
}

// Whether this is said of the words of a line.
fn says(alloc: Global, line: &str, want: &str) -> Result<bool, AllocError> {
    let words: Vec<&str> = line.split('|').collect(alloc)?;
    let wanted: Vec<&str> = want.split('|').collect(alloc)?;
    Ok(is_said(parse(alloc, &words), &wanted))
}

/// The first of these lines of which something else is said than what stands behind ` -> ` in it,
/// or than `want` where nothing does.
pub fn first_other<'l>(alloc: Global, lines: &'l str, want: &str) -> Option<&'l str> {
    for line in lines.lines() {
        let (words, want) = line.split_once(" -> ").unwrap_or((line, want));
        if !line.starts_with('#') && !matches!(says(alloc, words, want), Ok(true)) {
            return Some(line);
        }
    }
    None
}
