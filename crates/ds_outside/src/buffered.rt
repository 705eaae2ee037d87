//! A pen that keeps bytes back.
ghost use Rattle.std.specs.Prelude.{◌≡◌};
ghost use Rattle.ds_outside.specs.Pen.{Finishes, begun_on};
ghost use Rattle.ds_outside.specs.Written.{appended};
ghost use Rattle.ds_outside.specs.Writes.{Writes};

use crate::pending_bytes::PendingBytes;
use crate::{Pen, Sink, WriteFault};

/// A pen that keeps up to 65,536 bytes back before it hands them on to a sink, so that many small
/// pieces cost few writes there. What is kept when it is let go is lost: call `finish`.
#[derive(Drop)]
pub struct Buffered<'a, O: Sink> {
    pub sink: &'a mut O,
    kept: PendingBytes,
    so_far: Result<(), WriteFault>,
}

impl<'a, O: Sink> Buffered<'a, O> {
    /// Nothing is written yet.
    pub fn new(sink: &'a mut O) -> Self
        ensures same { result.sink.ghost_name ≡ sink.entry.ghost_name }
        ensures begun { ⟦<Self as Pen>⟧.writing result
            ≡ begun_on sink.entry.ghost_name (O.written sink.old) (O.faults sink.old) }
    {
        Buffered {
            sink,
            kept: PendingBytes::new(),
            so_far: Ok(()),
        }
    }

    /// Hands on what is kept, where all was written so far, and says whether all was. The sink then
    /// has all that was written, or a first part of it.
    pub fn finish(self) -> Result<(), WriteFault>
        ensures { Finishes (⟦<Self as Pen>⟧.writing self.entry) result
            (O.written self.exit.0.now) (O.faults self.exit.0.now) }
    {
        let Buffered {
            sink,
            mut kept,
            so_far,
        } = self;
        kept.hand_on_after(so_far, sink)
    }
}

impl<'a, O: Sink> Pen for Buffered<'a, O> {
    ghost writing = { λ b. record {
      name = b.sink.ghost_name;
      handed = O.written b.sink.now;
      written = appended (O.written b.sink.now) b.kept;
      faults = O.faults b.sink.now;
      so_far = b.so_far;
    } };

    fn put(&mut self, piece: &[u8]) {
        self.so_far = self.kept.take_after(self.so_far, piece, self.sink);
    }
}

#[cfg(test)]
mod tests {
    use super::*;
    use crate::MemorySink;

    // Writes a piece through a buffer: how a caller uses one.
    fn write_through<O: Sink>(piece: &[u8], out: &mut O) -> Result<(), WriteFault>
        ensures { Writes result (O.written out.old) (O.written out.new)
            (O.faults out.old) (O.faults out.new) piece.now }
    {
        let mut pen = Buffered::new(out);
        pen.put(piece);
        pen.finish()
    }

    // The sink takes six bytes a call, and its second call fails.
    #[test]
    fn a_front_goes_over_where_a_write_fails(rt: HostRuntime) {
        let Ok(mut sink) = MemorySink::with_room(rt.alloc(), 20) else {
            panic!(rt; "memory");
        };
        sink.at_most(6);
        assert!(rt; sink.fail_at(1).is_ok());
        assert!(rt; write_through(b"0 1 0\n1 0 1\n", &mut sink).is_err());
        assert_eq!(rt; sink.bytes(), b"0 1 0\n".as_slice());
        assert!(rt; write_through(b"1 0 1\nend 1\n", &mut sink).is_ok());
        assert_eq!(rt; sink.bytes(), b"0 1 0\n1 0 1\nend 1\n".as_slice());
    }
}
