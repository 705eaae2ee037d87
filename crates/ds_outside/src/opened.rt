ghost use Rattle.std.specs.Prelude.{◌≤◌, length, IfOk};

use std::io;
use std::io::{Read, Seek, SeekFrom};

// A file that is open, and the place that it stands at.
#[derive(Drop)]
pub(crate) struct Opened<F> {
    file: F,
    at: u64,
}

impl<F: Read + Seek> Opened<F> {
    // At its beginning.
    pub(crate) fn new(file: F) -> Self {
        Opened { file, at: 0 }
    }

    // Reads at a place. After an error the file is to be opened again.
    pub(crate) fn read_at(&mut self, at: u64, piece: &mut [u8]) -> io::Result<usize>
        ensures { IfOk result (λ n. n ≤ length piece.old) }
    {
        if self.at != at {
            self.file.seek(SeekFrom::Start(at))?;
        }
        let n = self.file.read(piece)?;
        self.at = at.saturating_add(n as u64);
        Ok(n)
    }
}
