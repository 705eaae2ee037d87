//! Workers that are held where they stand in each other's way.
use ds_base::OutOfMemory;
use ds_outside::Gate;
use ds_trial::{TOGGLE, Wanted, gives, printed};
use rand_core::SeedableRng;
use rand_core::utils::NextWord;
use rand_xoshiro::Xoshiro256PlusPlus;
use std::sync::atomic::AtomicBool;
use std::sync::atomic::Ordering::SeqCst;
use std::test::Fail;
use std::thread::Threads;

// Runs by one to as many workers as there may be.
const LINES: &str = "desync run tog v --jobs 1
desync run tog v --jobs 2
desync run tog v --jobs 3
desync run tog v --jobs 8
desync run tog v --jobs 64";

const VECTORS: &str = "1\n1\n0\n1\n";

const TRACE: &str = "0 0 0\n1 1 1\n2 0 0\n3 0 0\nend 1\n";

// Each pause looks at a flag that is never up 0 to 999 times, a number that is drawn from the seed,
// the worker, the event and the turn.
#[derive(Drop)]
struct Drawn {
    seed: u64,
    flag: AtomicBool,
}

impl Gate for Drawn {
    fn pause(&self, worker: u32, event: u32, turn: u64) {
        let place = (u64::from(worker) << 48) ^ (u64::from(event) << 32) ^ turn;
        let mut draws = Xoshiro256PlusPlus::seed_from_u64((self.seed << 56) ^ place);
        let word: u64 = draws.next_word();
        for _ in 0..word % 1_000 {
            if self.flag.load(SeqCst) {
                return;
            }
        }
    }
}

#[test]
fn held_workers_print_the_trace(rt: HostRuntime) -> Result<(), Fail> {
    let files = [("tog", TOGGLE), ("v", VECTORS)];
    for seed in 0..20 {
        let gate = Drawn {
            seed,
            flag: AtomicBool::new(false),
        };
        for line in LINES.split('\n') {
            let text = printed(&rt, &files, line, &gate);
            assert!(rt;
                text.is_some_and(|text| text.as_str() == TRACE),
                "{seed} {line}"
            );
        }
    }
    Ok(())
}

// Runs of which each worker stops behind nine firings, and how many may fire in all.
const STOPS: &str = "9 desync run tog v --log --stop 9 --jobs 1
18 desync run tog v --log --stop 9 --jobs 2
27 desync run tog v --log --stop 9 --jobs 3
32 desync run tog v --log --stop 9 --jobs 8
32 desync run tog v --log --stop 9 --jobs 64";

// Whether nine or more have fired by what a run has printed, and at most so many, and `replay` of
// it prints the lines before its log again.
fn is_stopped<R: AllocGlobal + Threads + Sync>(
    rt: &R,
    text: &str,
    most: usize,
) -> Result<bool, OutOfMemory> {
    let Some((head, log)) = text.split_once("firings\n") else {
        return Ok(false);
    };
    let files = [("tog", TOGGLE), ("v", VECTORS), ("l", text)];
    let wanted = Wanted {
        status: 0,
        text: head,
    };
    let same = gives(rt, &files, "desync replay tog v l", wanted)?;
    let fired = log.lines().count();
    Ok(same && 9 <= fired && fired <= most)
}

#[test]
fn held_workers_stop_within_their_bounds(rt: HostRuntime) -> Result<(), Fail> {
    let files = [("tog", TOGGLE), ("v", VECTORS)];
    for seed in 0..20 {
        let gate = Drawn {
            seed,
            flag: AtomicBool::new(false),
        };
        for case in STOPS.split('\n') {
            let (most, line) = case.split_once(' ').unwrap_or((case, ""));
            let most = most.parse::<usize>().unwrap_or(0);
            let Some(text) = printed(&rt, &files, line, &gate) else {
                panic!(rt; "{seed} {case}");
            };
            assert!(rt; is_stopped(&rt, text.as_str(), most)?, "{seed} {case}");
        }
    }
    Ok(())
}
