//! The top call, and which command does a job.
ghost use Rattle.std.specs.Prelude.{◌≡◌, map};
ghost use Rattle.ds_cmd.specs.Allowed.{AreAllowed};
ghost use Rattle.ds_stage.specs.Ends.{Ends, RoseIn, UnlessUnread, UnlessUnwritten, output_between};
ghost use Rattle.ds_app.specs.Interleavings.{Interleavings};
ghost use Rattle.ds_app.specs.Job.{stages_of};
ghost use Rattle.ds_app.specs.Status.{Call, IsAnswered, Reports, SaysEnd, SaysStop, SaysUsage};

use crate::accept::accept;
use crate::check::check;
use crate::clock::clock;
use crate::demo::demo;
use crate::graph::graph;
use crate::list_clusters::list_clusters;
use crate::period::period;
use crate::rate::rate;
use crate::replay::replay;
use crate::run::run;
use crate::times::times;
use ds_cmd::{Job, UsageFault, parse};
use ds_outside::{Files, Gate, Sink, write_all};
use ds_stage::Stop;
use std::thread::Threads;

/// Does all that the program does, and answers its status.
///
/// `words` begins with the program's name. Threads and memory come of `rt`, and the files are read
/// by their names in `words`. The text of the job goes to `out`; where there is a fault, a line
/// that names it goes to `err`. `gate` is where a test may hold a worker back; it changes nothing
/// in what is written.
///
/// | Status | Says |
/// |---|---|
/// | 0 | done, `out` has the text of the job |
/// | 1 | a file has a fault |
/// | 2 | the words are no command line |
/// | 3 | a file could not be read |
/// | 4 | memory was wanted and not found |
/// | 5 | `out` could not be written |
#[tactic(none)]
pub fn desync_main<R: AllocGlobal + Threads + Sync, F: Files, O: Sink, E: Sink, G: Gate>(
    rt: &R,
    words: &[&str],
    files: &mut F,
    out: &mut O,
    err: &mut E,
    gate: &G,
) -> u8
    // Each status has its cause, and where nothing fails each cause has its status.
    ensures answered { IsAnswered (record {
      words = map (λ w. w.now) words.now;
      held = F.held files.old;
      before = F.faults files.old;
      now = F.faults files.new;
      out = output_between O.written O.faults out.old out.new;
      err = output_between E.written E.faults err.old err.new;
    }) result }

    // Where the words are no command line, nothing is read.
    ensures nothing_read { result ≡ 2 → files.new ≡ files.old }

    // What the files hold is as it was.
    ensures same_held { F.held files.new ≡ F.held files.old }

    // In whatever order latches fire, registers store their clocked values, and firing goes on.
    ensures interleavings { Interleavings (F.held files.old) (map (λ w. w.now) words.now) }
{
    match parse(rt.alloc(), words) {
        Ok(job) => {
            let ended = do_job(rt, &job, gate, files, out);
            say_end(ended, err)
        }
        Err(fault) => say_usage(fault, err),
    }
}

// Does a job: reads its files and writes its text.
#[tactic(none)]
fn do_job<R: AllocGlobal + Threads + Sync, G: Gate, F: Files, O: Sink>(
    rt: &R,
    job: &Job,
    gate: &G,
    files: &mut F,
    out: &mut O,
) -> Result<(), Stop>
    requires { AreAllowed job.now }
    ensures value { Ends (stages_of (F.held files.old) job.now)
        (RoseIn (F.faults files.old) (F.faults files.new))
        (output_between O.written O.faults out.old out.new) result }
    ensures same_held { F.held files.new ≡ F.held files.old }
    ensures same_reads { UnlessUnread result (F.faults files.new ≡ F.faults files.old) }
    ensures same_writes { UnlessUnwritten result (O.faults out.new ≡ O.faults out.old) }
{
    let alloc = rt.alloc();
    match job {
        Job::Run(job) => run(rt, job, gate, files, out),
        Job::Clock(job) => clock(alloc, job, files, out),
        Job::Check(net) => check(alloc, net, files, out),
        Job::Graph(job) => graph(alloc, job, files, out),
        Job::Replay(job) => replay(alloc, job, files, out),
        Job::Accept(job) => accept(alloc, job, files, out),
        Job::Demo(job) => demo(rt, job, gate, out),
        Job::Period(job) => period(alloc, job, files, out),
        Job::Clusters(job) => list_clusters(alloc, job, files, out),
        Job::Rate(job) => rate(alloc, job, files, out),
        Job::Times(job) => times(alloc, job, files, out),
    }
}

// Says that the words are no command line, and answers the status.
fn say_usage<E: Sink>(fault: UsageFault, err: &mut E) -> u8
    ensures { SaysUsage fault (output_between E.written E.faults err.old err.new) result }
{
    match fault {
        UsageFault::Line | UsageFault::Number | UsageFault::Mode => {
            say(b"desync: bad command line\n", err);
            2
        }
        UsageFault::Memory => {
            say(b"desync: out of memory\n", err);
            4
        }
    }
}

// Says how a job ended, and answers the status: of one that is done it says nothing.
fn say_end<E: Sink>(ended: Result<(), Stop>, err: &mut E) -> u8
    ensures { SaysEnd ended (output_between E.written E.faults err.old err.new) result }
{
    match ended {
        Ok(()) => 0,
        Err(stop) => say_stop(&stop, err),
    }
}

// Says why a job ended, and answers the status.
fn say_stop<E: Sink>(stop: &Stop, err: &mut E) -> u8
    ensures { SaysStop stop.now (output_between E.written E.faults err.old err.new) result }
{
    match stop {
        Stop::Refused(line) => {
            say(line.as_slice(), err);
            1
        }
        Stop::Unread(line) => {
            say(line.as_slice(), err);
            3
        }
        Stop::Memory => {
            say(b"desync: out of memory\n", err);
            4
        }
        Stop::Unwritten => {
            say(b"desync: cannot write\n", err);
            5
        }
    }
}

// Writes a line, or as much of it as can be written.
fn say<E: Sink>(line: &[u8], err: &mut E)
    ensures { Reports (output_between E.written E.faults err.old err.new) line.now }
{
    match write_all(err, line) {
        Ok(()) | Err(_) => {}
    }
}
