//! A pen that hands each piece on at once.
ghost use Rattle.std.specs.Prelude.{◌≡◌};
ghost use Rattle.ds_outside.specs.Pen.{Finishes, begun_on};

use crate::sink::put;
use crate::{Pen, Sink, WriteFault};

/// A pen on a sink, which hands each piece on at once.
pub struct OnSink<'a, O: Sink> {
    pub sink: &'a mut O,
    so_far: Result<(), WriteFault>,
}

impl<'a, O: Sink> OnSink<'a, O> {
    /// Nothing is written yet.
    pub fn new(sink: &'a mut O) -> Self
        ensures same { result.sink.ghost_name ≡ sink.entry.ghost_name }
        ensures begun { ⟦<Self as Pen>⟧.writing result
            ≡ begun_on sink.entry.ghost_name (O.written sink.old) (O.faults sink.old) }
    {
        OnSink {
            sink,
            so_far: Ok(()),
        }
    }

    /// Whether all was written.
    pub fn finish(self) -> Result<(), WriteFault>
        ensures { Finishes (⟦<Self as Pen>⟧.writing self.entry) result
            (O.written self.exit.0.now) (O.faults self.exit.0.now) }
    {
        let OnSink { sink: _, so_far } = self;
        so_far
    }
}

impl<'a, O: Sink> Pen for OnSink<'a, O> {
    ghost writing = { λ p. record {
      name = p.sink.ghost_name;
      handed = O.written p.sink.now;
      written = O.written p.sink.now;
      faults = O.faults p.sink.now;
      so_far = p.so_far;
    } };

    fn put(&mut self, piece: &[u8]) {
        self.so_far = put(self.so_far, piece, self.sink);
    }
}
