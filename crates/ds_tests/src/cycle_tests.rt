//! The period beside a plain slow way to find it, by all cycles.
use ds_base::{EventId, Mode};
use ds_marked::{Arc, Marked};
use ds_outside::OpenGate;
use ds_stage::{Stop, no_groups, own_graph, put_event, read_netlist, split_groups};
use ds_trial::{files, printed};
use rand_core::SeedableRng;
use rand_core::utils::NextWord;
use rand_xoshiro::Xoshiro256PlusPlus;
use std::alloc::{AllocError, Global};
use std::test::Fail;
use std::thread::Threads;

// The delay and the tokens of a cycle.
#[derive(Clone, Copy)]
struct Ratio {
    delay: u64,
    tokens: u64,
}

impl Ratio {
    // Whether this one is the greater.
    fn is_above(self, other: Ratio) -> bool {
        self.delay.saturating_mul(other.tokens) > other.delay.saturating_mul(self.tokens)
    }
}

/// The next number below this one.
pub fn below(draws: &mut Xoshiro256PlusPlus, most: u64) -> u64 {
    let word: u64 = draws.next_word();
    word.checked_rem(most).unwrap_or(0)
}

/// A netlist of registers, each of which reads two nets, registers or the input.
pub fn netlist(
    alloc: Global,
    draws: &mut Xoshiro256PlusPlus,
    registers: u64,
) -> Result<String, AllocError> {
    let mut text = format!(in alloc; ".model m\n.inputs n{registers}\n.outputs n0\n")?;
    for i in 0..registers {
        let nets = registers.saturating_add(1);
        let one = below(draws, nets);
        let other = below(draws, nets);
        let table = format!(in alloc; ".names n{one} n{other} d{i}\n11 1\n")?;
        let register = format!(in alloc; ".latch d{i} n{i} re clk 0\n")?;
        text.push_str(table.as_str())?;
        text.push_str(register.as_str())?;
    }
    text.push_str(".end\n")?;
    Ok(text)
}

// The controller graph of a netlist, each register a cluster of its own.
fn graph_of(alloc: Global, net: &str) -> Result<Marked, Stop> {
    let mut files = files(alloc, &[("n", net)])?;
    let netlist = read_netlist(alloc, &mut files, "n")?;
    let latches = split_groups(alloc, "n", &netlist, Mode::Each, &no_groups(alloc))?;
    Ok(own_graph(alloc, &latches)?)
}

// A delay below 40 for each arc, often 0.
fn drawn(
    alloc: Global,
    draws: &mut Xoshiro256PlusPlus,
    count: usize,
) -> Result<Vec<u64>, AllocError> {
    let mut delays = Vec::new(alloc);
    for _ in 0..count {
        let delay = below(draws, 60);
        delays.push(if delay < 40 { delay } else { 0 })?;
    }
    Ok(delays)
}

// The lines of delays, without those of 0.
fn lines_of(alloc: Global, graph: &Marked, delays: &[u64]) -> Result<String, AllocError> {
    let mut lines = String::new(alloc);
    for (arc, delay) in graph.arcs().iter().zip(delays.iter()) {
        if *delay > 0 {
            let source = name_of(alloc, graph, arc.source)?;
            let target = name_of(alloc, graph, arc.target)?;
            let line = format!(in alloc; "{source} {target} {delay}\n")?;
            lines.push_str(line.as_str())?;
        }
    }
    Ok(lines)
}

// An event as it is written.
fn name_of(alloc: Global, graph: &Marked, event: EventId) -> Result<String, AllocError> {
    let mut name = Vec::new(alloc);
    put_event(&mut name, graph, event)?;
    String::from_str(alloc, str::from_utf8(&name).unwrap_or(""))
}

// Where a walk from this event ends.
fn end_of(arcs: &[Arc], walk: &[usize], start: usize) -> usize {
    match walk.last() {
        Some(last) => arcs.get(*last).map_or(start, |arc| arc.target.index()),
        None => start,
    }
}

// Whether an arc goes on from the end of a walk, to where it has begun or to an event above that
// on which it has not been.
fn goes_on(arcs: &[Arc], walk: &[usize], start: usize, arc: &Arc) -> bool {
    let target = arc.target.index();
    let been = walk.iter().any(|k| arcs
        .get(*k)
        .is_some_and(|other| other.target.index() == target));
    arc.source.index() == end_of(arcs, walk, start) && target >= start && !been
}

// The ratio of the arcs of a walk and one more.
fn ratio_of(arcs: &[Arc], delays: &[u64], walk: &[usize], last: usize) -> Ratio {
    let mut ratio = Ratio {
        delay: delays.get(last).map_or(0, |delay| *delay),
        tokens: arcs.get(last).map_or(0, |arc| u64::from(arc.tokens)),
    };
    for k in walk {
        let delay = delays.get(*k).map_or(0, |delay| *delay);
        let tokens = arcs.get(*k).map_or(0, |arc| u64::from(arc.tokens));
        ratio.delay = ratio.delay.saturating_add(delay);
        ratio.tokens = ratio.tokens.saturating_add(tokens);
    }
    ratio
}

// The greater of this ratio and those of all cycles with this least event. None where there are
// too many of them to be listed.
fn around(
    alloc: Global,
    arcs: &[Arc],
    delays: &[u64],
    start: usize,
    best: Ratio,
) -> Result<Option<Ratio>, AllocError> {
    let mut best = best;
    let mut walk: Vec<usize> = Vec::new(alloc);
    let mut next = 0_usize;
    for _ in 0..1_000_000 {
        match arcs.get(next) {
            Some(arc) if !goes_on(arcs, &walk, start, arc) => next = next.saturating_add(1),
            Some(arc) if arc.target.index() != start => {
                walk.push(next)?;
                next = 0;
            }
            Some(_) => {
                let ratio = ratio_of(arcs, delays, &walk, next);
                best = if ratio.is_above(best) { ratio } else { best };
                next = next.saturating_add(1);
            }
            None => match walk.pop() {
                Some(last) => next = last.saturating_add(1),
                None => return Ok(Some(best)),
            },
        }
    }
    Ok(None)
}

// The greatest ratio of all cycles, where they can be listed.
fn greatest(alloc: Global, graph: &Marked, delays: &[u64]) -> Result<Option<Ratio>, AllocError> {
    let mut best = Ratio {
        delay: 0,
        tokens: 1,
    };
    for start in 0..graph.events().len() {
        match around(alloc, graph.arcs(), delays, start, best)? {
            Some(ratio) => best = ratio,
            None => return Ok(None),
        }
    }
    Ok(Some(best))
}

// The ratio of a text that begins with its line.
fn told(text: &str) -> Option<Ratio> {
    let line = text.lines().next()?;
    let (delay, tokens) = line.strip_prefix("period ")?.split_once("/")?;
    Some(Ratio {
        delay: delay.parse::<u64>().ok()?,
        tokens: tokens.parse::<u64>().ok()?,
    })
}

// Whether the period of a design that is made from a number has the greatest ratio of all cycles.
fn is_greatest<R: AllocGlobal + Threads + Sync>(rt: &R, seed: u64) -> Result<bool, Stop> {
    let alloc = rt.alloc();
    let mut draws = Xoshiro256PlusPlus::seed_from_u64(seed);
    let net = netlist(alloc, &mut draws, (seed % 4).saturating_add(1))?;
    let graph = graph_of(alloc, net.as_str())?;
    let delays = drawn(alloc, &mut draws, graph.arcs().len())?;
    let lines = lines_of(alloc, &graph, &delays)?;
    let all = [("n", net.as_str()), ("d", lines.as_str())];
    let text = printed(rt, &all, "desync period n d", &OpenGate);
    let ratio = text.as_ref().and_then(|text| told(text.as_str()));
    let best = greatest(alloc, &graph, &delays)?;
    Ok(match (ratio, best) {
        (Some(ratio), Some(best)) => {
            best.delay > 0 && !ratio.is_above(best) && !best.is_above(ratio)
        }
        _ => false,
    })
}

#[test]
fn no_cycle_of_twenty_designs_is_slower_than_the_period(rt: HostRuntime) -> Result<(), Fail> {
    for seed in 0..20 {
        assert!(rt; is_greatest(&rt, seed).is_ok_and(|is| is), "{seed}");
    }
    Ok(())
}
