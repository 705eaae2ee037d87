//! The text of one or more lines, in memory.
ghost use Rattle.std.specs.Prelude.{◌≡◌, ◌<◌, [], Some, IfOk};
ghost use Rattle.ds_run.specs.Refused.{faults_by};

use ds_base::OutOfMemory;
use ds_outside::{Sink, WriteFault};
use std::alloc::Global;

// What was written of lines, and whether a write failed for want of memory.
#[derive(Drop)]
pub(crate) struct LinesText {
    bytes: Vec<u8>,
    refused: Option<OutOfMemory>,
}

impl LinesText {
    // Nothing yet, with room for so many bytes.
    pub(crate) fn with_room(alloc: Global, room: usize) -> Result<Self, OutOfMemory>
        ensures empty { IfOk result (λ text. ⟦<LinesText as Sink>⟧.written text ≡ Some []) }
        ensures no_fault { IfOk result (λ text. ⟦<LinesText as Sink>⟧.faults text ≡ 0) }
    {
        Ok(LinesText {
            bytes: Vec::with_capacity(alloc, room)?,
            refused: None,
        })
    }

    // The bytes so far.
    pub(crate) fn bytes(&self) -> &[u8]
        ensures { ⟦<LinesText as Sink>⟧.written self.now ≡ Some result.now }
    {
        &self.bytes
    }

    // The want of memory for which a write failed.
    pub(crate) fn refusal(&self) -> OutOfMemory
        requires { 0 < ⟦<LinesText as Sink>⟧.faults self.now }
    {
        match self.refused {
            Some(refusal) => refusal,
            None => unreachable!(),
        }
    }
}

impl Sink for LinesText {
    ghost use Rattle.std.specs.Prelude.{Some};
    ghost use Rattle.ds_run.specs.Refused.{faults_by};

    ghost written = { λ text. Some text.bytes.items };

    ghost faults = { λ text. faults_by text.refused };

    fn write(&mut self, piece: &[u8]) -> Result<usize, WriteFault> {
        match self.bytes.extend_from_slice(piece) {
            Ok(()) => Ok(piece.len()),
            Err(refusal) => {
                self.refused = Some(OutOfMemory::from(refusal));
                Err(WriteFault)
            }
        }
    }
}
