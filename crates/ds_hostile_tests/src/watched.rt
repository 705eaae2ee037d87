//! A double of files that tells which read was the last one.
ghost use Rattle.std.specs.Prelude.{◌≡◌};

use ds_outside::{Failed, Files, Which};

/// Files, and the kind and the place of the last read of them.
#[derive(Drop)]
pub struct Watched<F> {
    pub inner: F,
    which: Which,
    at: u64,
}

impl<F> Watched<F> {
    /// Before the first read.
    pub fn new(inner: F) -> Self {
        Watched {
            inner,
            which: Which::Net,
            at: 0,
        }
    }

    /// The kind of file that was last read.
    pub fn which(&self) -> Which {
        self.which
    }

    /// The place that was last read at, in bytes from 0.
    pub fn at(&self) -> u64 {
        self.at
    }
}

impl<F: Files> Files for Watched<F> {
    ghost held = { λ w. F.held w.inner };

    ghost faults = { λ w. F.faults w.inner };

    fn read_at(
        &mut self,
        which: Which,
        name: &str,
        at: u64,
        into: &mut [u8],
    ) -> Result<usize, Failed> {
        self.which = which;
        self.at = at;
        self.inner.read_at(which, name, at, into)
    }
}
