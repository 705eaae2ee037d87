//! Outputs as the program sees them: writes that may be short and may fail.
ghost use Rattle.std.specs.Prelude.{◌≡◌, ◌<◌, ◌≤◌, ℕ, List, Option, length, take, IfOk, OnOk};
ghost use Rattle.std.specs.Prelude.{OnErr};
ghost use Rattle.ds_outside.specs.Fault.{Rose};
ghost use Rattle.ds_outside.specs.Writes.{GoesOn};
ghost use Rattle.ds_outside.specs.Written.{appended, AppendsPart};

/// A write failed.
#[derive(Clone, Copy, Debug, PartialEq, Eq)]
pub struct WriteFault;

/// Takes bytes.
pub trait Sink {
    /// The bytes so far, where the object tells.
    ghost written: { Self → Option (List ℕ) };

    /// How often a write has failed.
    ghost faults: { Self → ℕ };

    /// Takes the first bytes of a piece, at least one where there is one, and says how many.
    fn write(&mut self, piece: &[u8]) -> Result<usize, WriteFault>
        ensures within { IfOk result (λ n. n ≤ length piece.now) }
        ensures some { IfOk result (λ n. 0 < length piece.now → 0 < n) }
        ensures ok { IfOk result
            (λ n. written self.new ≡ appended (written self.old) (take n piece.now)) }
        ensures err { OnErr result (written self.new ≡ written self.old) }

        ensures ok_same { OnOk result (faults self.new ≡ faults self.old) }
        ensures never_falls { faults self.old ≤ faults self.new }
        ensures cause { OnErr result (Rose (faults self.old) (faults self.new)) };
}

/// Writes a piece whole, or a first part of it and says that a write failed.
pub fn write_all<S: Sink>(sink: &mut S, piece: &[u8]) -> Result<(), WriteFault>
    ensures ok { OnOk result (S.written sink.new ≡ appended (S.written sink.old) piece.now) }
    ensures err { OnErr result (AppendsPart (S.written sink.old) (S.written sink.new) piece.now) }

    ensures ok_same { OnOk result (S.faults sink.new ≡ S.faults sink.old) }
    ensures never_falls { S.faults sink.old ≤ S.faults sink.new }
    ensures cause { OnErr result (Rose (S.faults sink.old) (S.faults sink.new)) }
{
    let mut done = 0;
    while done < piece.len() {
        done += sink.write(&piece[done..])?;
    }
    Ok(())
}

/// Writes a piece, unless a write has failed before.
pub(crate) fn put<S: Sink>(
    so_far: Result<(), WriteFault>,
    piece: &[u8],
    sink: &mut S,
) -> Result<(), WriteFault>
    ensures { GoesOn so_far result (S.written sink.old) (S.written sink.new) (S.faults sink.old)
        (S.faults sink.new) piece.now }
{
    match so_far {
        Ok(()) => write_all(sink, piece),
        Err(fault) => Err(fault),
    }
}
