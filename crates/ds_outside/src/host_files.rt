//! The files of the system.
ghost use Rattle.std.specs.Prelude.{◌≡◌, ◌≤◌, length, IfSome, IfNone};
ghost use Rattle.ds_outside.specs.Held.{untold};

use crate::last_name::LastName;
use crate::opened::Opened;
use crate::{Failed, Faults, Files, Which};
use std::io::{Read, Seek};
use std::{fs, rt};

/// The files of the system. They tell no bytes. The file that was read last stays open, and one
/// read gives at most 65,536 bytes.
#[derive(Drop)]
pub struct HostFiles<'r, R: rt::Files> {
    rt: &'r R,
    opened: Option<Opened<R::File>>,
    name: LastName,
    piece: [u8; 65536],
    faults: Faults,
}

impl<'r, R: rt::Files> HostFiles<'r, R> {
    /// Nothing is open, and nothing has failed yet.
    pub fn new(rt: &'r R) -> Self {
        HostFiles {
            rt,
            opened: None,
            name: LastName::new(),
            piece: [0; 65536],
            faults: Faults::none(),
        }
    }

    // Opens a file, unless it is the one that was read last.
    fn open(&mut self, name: &str) -> Option<()>
        ensures { self.new.faults ≡ self.old.faults }
    {
        if self.opened.is_some() && self.name.is(name) {
            return Some(());
        }
        self.opened = None;
        let file = fs::open(self.rt, name).ok()?;
        self.opened = Some(Opened::new(file));
        self.name.set(name);
        Some(())
    }

    // Reads from the file with this name.
    fn read(&mut self, name: &str, at: u64, into: &mut [u8]) -> Option<usize>
        ensures within { IfSome result (λ n. n ≤ length into.old) }
        ensures none { IfNone result (into.new ≡ into.old) }
        ensures same { self.new.faults ≡ self.old.faults }
    {
        self.open(name)?;
        let Some(file) = &mut self.opened else {
            return None;
        };
        read_through(file, at, &mut self.piece, into)
    }
}

impl<R: rt::Files> Files for HostFiles<'_, R> {
    ghost use Rattle.ds_outside.specs.Memory.{faults_of};

    ghost held = { λ _ _. untold };

    ghost faults = { λ f which _. faults_of f.faults which };

    fn read_at(
        &mut self,
        which: Which,
        name: &str,
        at: u64,
        into: &mut [u8],
    ) -> Result<usize, Failed> {
        match self.read(name, at, into) {
            Some(n) => Ok(n),
            None => {
                self.opened = None;
                self.faults.raise(which);
                Err(Failed)
            }
        }
    }
}

// Reads into the piece first, since a failed read of the system may write to what it was given.
fn read_through<F: Read + Seek>(
    file: &mut Opened<F>,
    at: u64,
    piece: &mut [u8],
    into: &mut [u8],
) -> Option<usize>
    ensures within { IfSome result (λ n. n ≤ length into.old) }
    ensures none { IfNone result (into.new ≡ into.old) }
{
    let room = into.len().min(piece.len());
    let n = file.read_at(at, &mut piece[..room]).ok()?;
    into[..n].copy_from_slice(&piece[..n]);
    Some(n)
}

#[cfg(test)]
mod tests {
    use super::*;

    #[test]
    fn a_file_is_read_at_a_place(rt: HostRuntime) {
        assert!(rt; fs::write(&rt, "net", "0123456789").is_ok());
        assert!(rt; fs::write(&rt, "vec", "abc").is_ok());
        assert!(rt; fs::create_dir(&rt, "folder").is_ok());
        let mut files = HostFiles::new(&rt);
        for (name, at, want) in [
            ("net", 0, "0123"),
            ("net", 4, "4567"),
            ("net", 8, "89"),
            ("net", 10, ""),
            ("vec", 1, "bc"),
            ("net", 3, "3456"),
        ] {
            let mut into = [b' '; 4];
            let read = files.read_at(Which::Net, name, at, &mut into);
            assert_eq!(rt; read, Ok(want.len()), "{name} at {at}");
            let wanted = want.as_bytes();
            assert!(rt; into.starts_with(wanted), "{name} at {at}");
        }
        assert_eq!(rt; files.faults.net, 0);
        for name in ["folder", "none"] {
            let mut into = [b' '; 4];
            let read = files.read_at(Which::Graph, name, 0, &mut into);
            assert_eq!(rt; read, Err(Failed), "{name}");
        }
        assert_eq!(rt; files.faults.graph, 2);
        assert_eq!(rt; files.faults.net, 0);
    }
}
