//! Files as the program sees them: bytes under names, which may or may not be told, and reads that
//! may fail.
ghost use Rattle.std.specs.Prelude.{◌≡◌, ◌≢◌, ◌<◌, ◌≤◌, ◌^◌, ◌+◌, ℕ, List, [], ◌∷◌, ◌++◌, Option};
ghost use Rattle.std.specs.Prelude.{Some, length, take, drop, IfOk, OnOk, OnErr};
ghost use Rattle.ds_outside.specs.Fault.{Rose};
ghost use Rattle.ds_outside.specs.Held.{Held, ReadsHeld, FrontIsHeld};

use std::alloc::{AllocError, Global};
use thiserror::Error;

/// Which of a job's files is meant.
#[derive(Clone, Copy, Debug, PartialEq, Eq)]
pub enum Which {
    Net,
    Graph,
    Vectors,
    Log,
    Delays,
    Groups,
}

/// A read failed.
#[derive(Clone, Copy, Debug, PartialEq, Eq)]
pub struct Failed;

/// Why a file is not read whole: a read failed, or memory was wanted and not found.
#[derive(Clone, Copy, Debug, PartialEq, Eq, Error)]
pub enum ReadFault {
    #[error("cannot read")]
    Failed,
    #[error("out of memory")]
    Memory,
}

/// Bytes under names. What is held, and whether it is told, never changes.
pub trait Files {
    ghost use Rattle.ds_outside.specs.declared.files.Which.{Which};

    /// What stands under a name, where the object tells.
    ghost held: { Self → List ℕ → Held };

    /// How often a read of this kind under this name has failed.
    ghost faults: { Self → Which → List ℕ → ℕ };

    /// Reads bytes at a place, counted from 0, and says how many: none only at the end, or where
    /// there is no room. A name under which nothing stands fails.
    fn read_at(
        &mut self,
        which: Which,
        name: &str,
        at: u64,
        into: &mut [u8],
    ) -> Result<usize, Failed>
        requires { at ≤ 2 ^ 48 }

        ensures within { IfOk result (λ n. n ≤ length into.old) }
        ensures ok { IfOk result (λ n. ReadsHeld (held self.old name.now) at n into.old into.new) }
        ensures err { OnErr result (into.new ≡ into.old) }

        ensures same_held { held self.new ≡ held self.old }
        ensures ok_same { OnOk result (faults self.new ≡ faults self.old) }
        ensures never_falls { (w : Which) (n : List ℕ) → faults self.old w n ≤ faults self.new w n }
        ensures other_kinds { (w : Which) (n : List ℕ) → w ≢ which
            → faults self.new w n ≡ faults self.old w n }
        ensures cause { OnErr result
            (Rose (faults self.old which name.now) (faults self.new which name.now)) };
}

/// The first bytes that stand under a name, at most so many. One more than a limit tells whether
/// more than the limit is held.
pub fn read_whole<F: Files>(
    alloc: Global,
    files: &mut F,
    which: Which,
    name: &str,
    most: usize,
) -> Result<Vec<u8>, ReadFault>
    requires { most ≤ 2 ^ 48 }

    ensures ok { IfOk result (λ bytes. FrontIsHeld (F.held files.old name.now) most bytes.items) }

    ensures same_held { F.held files.new ≡ F.held files.old }
    ensures ok_same { OnOk result (F.faults files.new ≡ F.faults files.old) }
    ensures never_falls { (w : _) (n : List ℕ) → F.faults files.old w n ≤ F.faults files.new w n }
    ensures other_kinds { (w : _) (n : List ℕ) → w ≢ which
        → F.faults files.new w n ≡ F.faults files.old w n }
    ensures cause { result ≡ Err ReadFault.Failed
        → Rose (F.faults files.old which name.now) (F.faults files.new which name.now) }
{
    let mut bytes = Vec::new(alloc);
    let mut piece = [0u8; 65536];
    'reading: loop {
        let room = piece.len().min(most - bytes.len());
        let n = match files.read_at(which, name, bytes.len() as u64, &mut piece[..room]) {
            Ok(n) => n,
            Err(_) => return Err(ReadFault::Failed),
        };
        if n == 0 {
            break;
        }
        if bytes.extend_from_slice(&piece[..n]).is_err() {
            return Err(ReadFault::Memory);
        }
    }
    Ok(bytes)
}

#[cfg(test)]
mod tests {
    use super::*;
    use crate::{Entry, MemoryFiles, SureFiles};
    use ds_base::Seq;

    fn entries(alloc: Global) -> Result<Vec<Entry>, AllocError> {
        let mut name = Vec::new(alloc);
        name.extend_from_slice(b"net")?;
        let mut content = Vec::new(alloc);
        content.extend_from_slice(b".model m")?;
        let mut entries = Vec::new(alloc);
        entries.push(Entry {
            name: Seq::of(name),
            content: Seq::of(content),
        })?;
        Ok(entries)
    }

    #[test]
    fn a_file_in_memory_is_read_by_single_bytes(rt: HostRuntime) {
        let Ok(held) = entries(rt.alloc()) else {
            panic!(rt; "memory");
        };
        let mut files = MemoryFiles::of(rt.alloc(), held);
        files.at_most(1);
        for (most, want) in [(20, ".model m"), (8, ".model m"), (3, ".mo"), (0, "")] {
            let read = read_whole(rt.alloc(), &mut files, Which::Net, "net", most);
            assert!(rt;
                read.is_ok_and(|bytes| bytes.as_slice() == want.as_bytes()),
                "{most}"
            );
        }
        assert!(rt; files.fail_at(25).is_ok());
        let read = read_whole(rt.alloc(), &mut files, Which::Log, "net", 20);
        assert!(rt; matches!(read, Err(ReadFault::Failed)));
        let read = read_whole(rt.alloc(), &mut files, Which::Log, "ne", 20);
        assert!(rt; matches!(read, Err(ReadFault::Failed)));
    }

    #[test]
    fn a_sure_file_that_was_not_given_is_empty(rt: HostRuntime) {
        let Ok(held) = entries(rt.alloc()) else {
            panic!(rt; "memory");
        };
        let mut files = SureFiles::of(held);
        for (name, want) in [("net", ".model m"), ("vec", "")] {
            let read = read_whole(rt.alloc(), &mut files, Which::Net, name, 20);
            assert!(rt;
                read.is_ok_and(|bytes| bytes.as_slice() == want.as_bytes()),
                "{name}"
            );
        }
    }
}
