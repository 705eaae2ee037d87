//! The outputs of the system.
ghost use Rattle.std.specs.Prelude.{◌≡◌, ◌<◌, ◌≤◌, length, None, IfSome};

use crate::{Sink, WriteFault};
use std::io::Write;

/// A sink over a writer of the system, as standard output. It tells no bytes.
#[derive(Drop)]
pub struct HostOut<W> {
    writer: W,
    faults: u64,
}

impl<W: Write> HostOut<W> {
    /// Nothing has failed yet.
    pub fn new(writer: W) -> Self {
        HostOut { writer, faults: 0 }
    }

    // Writes and flushes. A write that takes nothing of a piece counts as an error.
    fn write_some(&mut self, piece: &[u8]) -> Option<usize>
        ensures within { IfSome result (λ n. n ≤ length piece.now) }
        ensures some { IfSome result (λ n. 0 < length piece.now → 0 < n) }
        ensures same { self.new.faults ≡ self.old.faults }
    {
        let n = self.writer.write(piece).ok()?;
        self.writer.flush().ok()?;
        if n == 0 && !piece.is_empty() {
            return None;
        }
        Some(n)
    }
}

impl<W: Write> Sink for HostOut<W> {
    ghost written = { λ _. None };

    ghost faults = { λ sink. sink.faults };

    fn write(&mut self, piece: &[u8]) -> Result<usize, WriteFault> {
        match self.write_some(piece) {
            Some(n) => Ok(n),
            None => {
                self.faults = self.faults.saturating_add(1);
                Err(WriteFault)
            }
        }
    }
}

#[cfg(test)]
mod tests {
    use super::*;
    use crate::write_all;
    use std::fs;

    #[test]
    fn a_closed_file_raises_the_count(rt: HostRuntime) {
        let Ok(file) = fs::create(&rt, "out") else {
            panic!(rt; "no file");
        };
        let mut out = HostOut::new(file);
        assert!(rt; write_all(&mut out, b"end 1\n").is_ok());
        assert_eq!(rt; out.faults, 0);
        let text = fs::read_to_string(&rt, "out");
        assert!(rt; text.is_ok_and(|text| text.as_str() == "end 1\n"));

        let Ok(read_only) = fs::open(&rt, "out") else {
            panic!(rt; "no file");
        };
        let mut out = HostOut::new(read_only);
        assert!(rt; write_all(&mut out, b"1").is_err());
        assert_eq!(rt; out.faults, 1);
    }
}
