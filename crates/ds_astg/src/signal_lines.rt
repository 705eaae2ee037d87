//! The lines that declare the signals of a graph that is written.
ghost use Rattle.std.specs.Prelude.{◌≡◌, ◌*◌, ◌<◌, ◌↔◌, length, take, drop, codes, IsTrue};
ghost use Rattle.ds_outside.specs.Pen.{Puts};
ghost use Rattle.ds_astg.specs.Pieces.{line_with};
ghost use Rattle.ds_astg.specs.Text.{signal_lines, signal_of, signals_text};

use ds_marked::{Event, Kind};
use ds_outside::Pen;

/// Writes the lines of the signals that rise among the events: of the first ones, which are so
/// many, and of the further ones, where there are some.
pub fn put_signal_lines<P: Pen>(own: u32, events: &[Event], pen: &mut P)
    ensures { Puts (P.writing pen.old) (P.writing pen.new) (signal_lines own events.now) }
{
    let (first, further) = parted(own, events);
    pen.put(b".outputs");
    put_signals(first, pen);
    pen.put(b"\n");
    put_further(further, pen);
}

// The events of so many signals, two of each, and the events behind them.
fn parted(own: u32, events: &[Event]) -> (&[Event], &[Event])
    ensures first { result.0.now ≡ take (2 * own) events.now }
    ensures further { result.1.now ≡ drop (2 * own) events.now }
{
    let place = 2 * own as usize;
    if events.len() < place {
        return (events, &[]);
    }
    events.split_at(place)
}

// Writes the line of the further signals, where there are some.
fn put_further<P: Pen>(events: &[Event], pen: &mut P)
    ensures { Puts (P.writing pen.old) (P.writing pen.new)
        (line_with (codes ".internal") (signals_text events.now)) }
{
    if !has_signal(events) {
        return;
    }
    pen.put(b".internal");
    put_signals(events, pen);
    pen.put(b"\n");
}

// Whether a signal rises among the events.
fn has_signal(events: &[Event]) -> bool
    ensures { IsTrue result ↔ (0 < length (signals_text events.now)) }
{
    for event in events {
        if matches!(event.kind, Kind::Rise) {
            return true;
        }
    }
    false
}

// Writes the signals that rise.
fn put_signals<P: Pen>(events: &[Event], pen: &mut P)
    ensures { Puts (P.writing pen.old) (P.writing pen.new) (signals_text events.now) }
{
    for event in events {
        put_signal(event, pen);
    }
}

// Writes the signal of an event, where it rises.
fn put_signal<P: Pen>(event: &Event, pen: &mut P)
    ensures { Puts (P.writing pen.old) (P.writing pen.new) (signal_of event.now) }
{
    match event.kind {
        Kind::Rise => {
            pen.put(b" ");
            pen.put(event.signal.as_slice());
        }
        Kind::Fall => {}
        Kind::Dummy => {}
    }
}
