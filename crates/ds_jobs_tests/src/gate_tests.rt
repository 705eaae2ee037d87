//! Workers that are held at the gate: what they fire is theirs, and they run at once.
use ds_outside::Gate;
use ds_trial::{SHIFT, printed};
use std::sync::atomic::Ordering::SeqCst;
use std::sync::atomic::{AtomicBool, AtomicU32};
use std::thread::Threads;

// How many looks a worker that is held takes at a flag.
const LOOKS: u32 = 100_000_000;

// The events of two registers in a row where workers are held: of the first master, and of the
// second one.
const M0_OPENS: u32 = 4;

const M0_CLOSES: u32 = 5;

const M1_OPENS: u32 = 8;

const M1_CLOSES: u32 = 9;

// The first worker who paused at an event, its number and one, and the latest; 0 where nobody did.
#[derive(Drop)]
struct PausePoint {
    first: AtomicU32,
    latest: AtomicU32,
}

impl PausePoint {
    fn new() -> Self {
        PausePoint {
            first: AtomicU32::new(0),
            latest: AtomicU32::new(0),
        }
    }

    // A worker pauses. True: it is the first.
    fn come(&self, worker: u32) -> bool {
        let mark = worker.saturating_add(1);
        self.latest.store(mark, SeqCst);
        self.first.compare_exchange(0, mark, SeqCst, SeqCst).is_ok()
    }

    // Somebody has paused.
    fn is_met(&self) -> bool {
        self.first.load(SeqCst) != 0
    }

    // Somebody other than this worker has paused.
    fn is_met_without(&self, worker: u32) -> bool {
        let mark = worker.saturating_add(1);
        let first = self.first.load(SeqCst);
        let latest = self.latest.load(SeqCst);
        (first != 0 && first != mark) || (latest != 0 && latest != mark)
    }

    // Looks whether a worker other than this one has paused, until it has or the looks are used
    // up.
    fn looks_for_another(&self, worker: u32) -> bool {
        for _ in 0..LOOKS {
            if self.is_met_without(worker) {
                return true;
            }
        }
        false
    }
}

// The places of two registers in a row where workers are held, and whether one of them waited in
// vain.
#[derive(Drop)]
struct Meeting {
    opens: PausePoint,
    closes: PausePoint,
    in_vain: AtomicBool,
}

impl Meeting {
    fn new() -> Self {
        Meeting {
            opens: PausePoint::new(),
            closes: PausePoint::new(),
            in_vain: AtomicBool::new(false),
        }
    }

    // Holds a worker until another one has paused at a place.
    fn hold(&self, place: &PausePoint, worker: u32) {
        if !place.looks_for_another(worker) {
            self.in_vain.store(true, SeqCst);
        }
    }

    // Somebody paused at each place, and nobody waited in vain.
    fn held(&self) -> bool {
        self.opens.is_met() && self.closes.is_met() && !self.in_vain.load(SeqCst)
    }
}

// The first who pauses at M0+ is held until another has paused at M1-. Who pauses there first looks
// whether another has come to M0+, so that it does not come there itself, and goes on in any case.
#[derive(Drop)]
struct OneIsHeld {
    meeting: Meeting,
}

impl Gate for OneIsHeld {
    fn pause(&self, worker: u32, event: u32, _turn: u64) {
        let meeting = &self.meeting;
        if event == M0_OPENS && meeting.opens.come(worker) {
            meeting.hold(&meeting.closes, worker);
        }
        if event == M1_CLOSES && meeting.closes.come(worker) {
            let _came = meeting.opens.looks_for_another(worker);
        }
    }
}

// The first who pauses at M0+ and the first who pauses at M1- are held until another has paused at
// the other place.
#[derive(Drop)]
struct BothAreHeld {
    meeting: Meeting,
}

impl Gate for BothAreHeld {
    fn pause(&self, worker: u32, event: u32, _turn: u64) {
        let meeting = &self.meeting;
        if event == M0_OPENS && meeting.opens.come(worker) {
            meeting.hold(&meeting.closes, worker);
        }
        if event == M1_CLOSES && meeting.closes.come(worker) {
            meeting.hold(&meeting.opens, worker);
        }
    }
}

// Whoever pauses at M1+ is held until some worker has paused at M0-.
#[derive(Drop)]
struct LateIsHeld {
    came: AtomicBool,
    passed: AtomicBool,
    in_vain: AtomicBool,
}

impl LateIsHeld {
    // Some worker paused at M1+, and nobody waited there in vain.
    fn held(&self) -> bool {
        self.came.load(SeqCst) && self.passed.load(SeqCst) && !self.in_vain.load(SeqCst)
    }

    // Looks whether a worker has paused at M0-, until one has or the looks are used up.
    fn wait(&self) {
        for _ in 0..LOOKS {
            if self.passed.load(SeqCst) {
                return;
            }
        }
        self.in_vain.store(true, SeqCst);
    }
}

impl Gate for LateIsHeld {
    fn pause(&self, _worker: u32, event: u32, _turn: u64) {
        if event == M1_OPENS {
            self.came.store(true, SeqCst);
            self.wait();
        }
        if event == M0_CLOSES {
            self.passed.store(true, SeqCst);
        }
    }
}

// Whether one line of a text stands before another; both are there.
fn stands_before(text: &str, first: &str, second: &str) -> bool {
    let mut first_seen = false;
    let mut second_seen = false;
    for line in text.split('\n') {
        if line == first {
            first_seen = true;
            if second_seen {
                return false;
            }
        }
        if line == second {
            second_seen = true;
        }
    }
    first_seen && second_seen
}

// The trace and the log that two workers print.
fn logged<R: AllocGlobal + Threads + Sync, G: Gate>(rt: &R, gate: &G) -> Option<String> {
    let files = [("n", SHIFT), ("v", "1\n0\n1\n")];
    let text = printed(rt, &files, "desync run n v --jobs 2 --log", gate)?;
    if text
        .as_str()
        .starts_with("0 0 00\n1 0 10\n2 1 01\nend 10\nfirings\n")
    {
        Some(text)
    } else {
        None
    }
}

#[test]
fn gate_one(rt: HostRuntime) {
    let gate = OneIsHeld {
        meeting: Meeting::new(),
    };
    let Some(text) = logged(&rt, &gate) else {
        panic!(rt; "no trace");
    };
    assert!(rt; gate.meeting.held());
    assert!(rt; stands_before(text.as_str(), "M1+ 1", "M0+ 1"));
}

#[test]
fn gate_both(rt: HostRuntime) {
    let gate = BothAreHeld {
        meeting: Meeting::new(),
    };
    let Some(text) = logged(&rt, &gate) else {
        panic!(rt; "no trace");
    };
    assert!(rt; gate.meeting.held());
    assert!(rt; stands_before(text.as_str(), "M1+ 1", "M0+ 1"));
}

#[test]
fn gate_late(rt: HostRuntime) {
    let gate = LateIsHeld {
        came: AtomicBool::new(false),
        passed: AtomicBool::new(false),
        in_vain: AtomicBool::new(false),
    };
    let Some(text) = logged(&rt, &gate) else {
        panic!(rt; "no trace");
    };
    assert!(rt; gate.held());
    assert!(rt; stands_before(text.as_str(), "M0+ 1", "M1+ 1"));
}
