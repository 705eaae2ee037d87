//! The bytes that a pen keeps back.
ghost use Rattle.std.specs.Prelude.{◌≡◌, ◌+◌, ◌<◌, ◌≤◌, ◌++◌, ℕ, List, [], length, take};
ghost use Rattle.std.specs.Prelude.{drop, OnOk, OnErr, IfOk, IsOk, IsErr, ◌⊎◌};
ghost use Rattle.ds_outside.specs.Fault.{Rose};
ghost use Rattle.ds_outside.specs.Written.{appended};
ghost use Rattle.ds_outside.specs.Handing.{GrewOn, replaced};
ghost use Rattle.ds_outside.specs.Writes.{GoesOn, Writes};

use crate::{Sink, WriteFault};
use std::marker::Model;

// Bytes that are still to be handed on: those of the array from `start` up to `end`.
#[derive(Drop)]
pub(crate) struct PendingBytes {
    bytes: [u8; 65536],
    start: usize,
    end: usize,
}

impl Model for PendingBytes {
    ghost use Rattle.std.specs.Prelude.{◌≡◌, ◌≤◌, ℕ, List, take, drop};

    ghost Value = { List ℕ };

    ghost view = { λ k. drop k.start (take k.end k.bytes) };

    ghost invariant = { λ k. (k.start ≤ k.end) × (k.end ≤ 65536) × (k.end ≤ k.start → k.end ≡ 0) };
}

impl PendingBytes {
    // Nothing yet.
    pub(crate) fn new() -> Self
        ensures { result ≡ [] }
    {
        PendingBytes {
            bytes: [0; 65536],
            start: 0,
            end: 0,
        }
    }

    // Keeps the first bytes of a piece, as many as find room, and says how many.
    pub(crate) fn keep(&mut self, piece: &[u8]) -> usize
        ensures within { result ≤ length piece.now }
        ensures some { self.old ≡ [] → 0 < length piece.now → 0 < result }
        ensures kept { self.new ≡ self.old ++ take result piece.now }
    {
        let n = piece.len().min(65536 - self.end);
        put_at(&mut self.bytes, self.end, &piece[..n]);
        self.end += n;
        n
    }

    // Hands all on, or a first part of it where a write fails.
    pub(crate) fn hand_on<O: Sink>(&mut self, sink: &mut O) -> Result<(), WriteFault>
        ensures same { appended (O.written sink.new) self.new
            ≡ appended (O.written sink.old) self.old }
        ensures empty { OnOk result (self.new ≡ []) }
        ensures grew { GrewOn (O.written sink.old) (O.written sink.new) }
        ensures ok_same { OnOk result (O.faults sink.new ≡ O.faults sink.old) }
        ensures never_falls { O.faults sink.old ≤ O.faults sink.new }
        ensures cause { OnErr result (Rose (O.faults sink.old) (O.faults sink.new)) }
    {
        self.start = write_from(sink, &self.bytes[..self.end], self.start);
        if self.start < self.end {
            return Err(WriteFault);
        }
        self.start = 0;
        self.end = 0;
        Ok(())
    }

    // Keeps the first bytes of a piece, at least one where there is one, and says how many; where
    // there is no room all that is kept is handed on before.
    fn take_some<O: Sink>(&mut self, piece: &[u8], sink: &mut O) -> Result<usize, WriteFault>
        ensures within { IfOk result (λ n. n ≤ length piece.now) }
        ensures some { IfOk result (λ n. 0 < length piece.now → 0 < n) }
        ensures ok { IfOk result (λ n. appended (O.written sink.new) self.new
            ≡ appended (appended (O.written sink.old) self.old) (take n piece.now)) }
        ensures err { OnErr result (appended (O.written sink.new) self.new
            ≡ appended (O.written sink.old) self.old) }
        ensures grew { GrewOn (O.written sink.old) (O.written sink.new) }
        ensures ok_same { OnOk result (O.faults sink.new ≡ O.faults sink.old) }
        ensures never_falls { O.faults sink.old ≤ O.faults sink.new }
        ensures cause { OnErr result (Rose (O.faults sink.old) (O.faults sink.new)) }
    {
        let n = self.keep(piece);
        if n > 0 || piece.is_empty() {
            return Ok(n);
        }
        self.hand_on(sink)?;
        Ok(self.keep(piece))
    }

    // Keeps a piece whole, or a first part of it where a write fails.
    fn take<O: Sink>(&mut self, piece: &[u8], sink: &mut O) -> Result<(), WriteFault>
        ensures writes { Writes result (appended (O.written sink.old) self.old)
            (appended (O.written sink.new) self.new) (O.faults sink.old) (O.faults sink.new)
            piece.now }
        ensures grew { GrewOn (O.written sink.old) (O.written sink.new) }
    {
        let mut done = 0;
        while done < piece.len() {
            done += self.take_some(&piece[done..], sink)?;
        }
        Ok(())
    }

    // Keeps a piece, unless a write has failed before.
    pub(crate) fn take_after<O: Sink>(
        &mut self,
        so_far: Result<(), WriteFault>,
        piece: &[u8],
        sink: &mut O,
    ) -> Result<(), WriteFault>
        ensures goes_on { GoesOn so_far result (appended (O.written sink.old) self.old)
            (appended (O.written sink.new) self.new) (O.faults sink.old) (O.faults sink.new)
            piece.now }
        ensures grew { GrewOn (O.written sink.old) (O.written sink.new) }
    {
        match so_far {
            Ok(()) => self.take(piece, sink),
            Err(fault) => Err(fault),
        }
    }

    // Hands all on, unless a write has failed before.
    pub(crate) fn hand_on_after<O: Sink>(
        &mut self,
        so_far: Result<(), WriteFault>,
        sink: &mut O,
    ) -> Result<(), WriteFault>
        ensures same { appended (O.written sink.new) self.new
            ≡ appended (O.written sink.old) self.old }
        ensures ok { OnOk result (IsOk so_far × (self.new ≡ [])) }
        ensures grew { GrewOn (O.written sink.old) (O.written sink.new) }
        ensures ok_same { OnOk result (O.faults sink.new ≡ O.faults sink.old) }
        ensures never_falls { O.faults sink.old ≤ O.faults sink.new }
        ensures cause { OnErr result (IsErr so_far ⊎ Rose (O.faults sink.old) (O.faults sink.new)) }
    {
        match so_far {
            Ok(()) => self.hand_on(sink),
            Err(fault) => Err(fault),
        }
    }
}

// Writes a piece into an array at a place.
fn put_at(bytes: &mut [u8], at: usize, piece: &[u8])
    requires { at + length piece.now ≤ length bytes.old }
    ensures { bytes.new ≡ replaced bytes.old at piece.now }
{
    bytes[at..at + piece.len()].copy_from_slice(piece);
}

// Writes a piece from a place on as far as it goes, and says how far.
fn write_from<O: Sink>(sink: &mut O, piece: &[u8], start: usize) -> usize
    requires { start ≤ length piece.now }
    ensures from { start ≤ result }
    ensures within { result ≤ length piece.now }
    ensures same { appended (O.written sink.new) (drop result piece.now)
        ≡ appended (O.written sink.old) (drop start piece.now) }
    ensures grew { GrewOn (O.written sink.old) (O.written sink.new) }
    ensures all_same { length piece.now ≤ result → O.faults sink.new ≡ O.faults sink.old }
    ensures never_falls { O.faults sink.old ≤ O.faults sink.new }
    ensures cause { result < length piece.now → Rose (O.faults sink.old) (O.faults sink.new) }
{
    let mut done = start;
    while done < piece.len() {
        match sink.write(&piece[done..]) {
            Ok(n) => done += n,
            Err(_) => return done,
        }
    }
    done
}
