//! A double of the system's files for tests: reads never fail.
ghost use Rattle.std.specs.Prelude.{◌≡◌, ℕ, List};
ghost use Rattle.ds_outside.specs.Memory.{sure_in};

use crate::entry::{copy_from, find};
use crate::{Entry, Failed, Files, Which};

/// Files in memory that cannot fail: an empty text stands under every name that was not given.
#[derive(Drop)]
pub struct SureFiles {
    entries: Vec<Entry>,
}

impl SureFiles {
    /// These files. Of two with one name the first counts.
    pub fn of(entries: Vec<Entry>) -> Self
        ensures held { ⟦<SureFiles as Files>⟧.held result ≡ sure_in entries.items }
    {
        SureFiles { entries }
    }
}

impl Files for SureFiles {
    ghost use Rattle.ds_outside.specs.Memory.{sure_in};

    ghost held = { λ m name. sure_in m.entries.items name };

    ghost faults = { λ _ _ _. 0 };

    fn read_at(
        &mut self,
        _which: Which,
        name: &str,
        at: u64,
        into: &mut [u8],
    ) -> Result<usize, Failed> {
        match find(&self.entries, name) {
            None => Ok(0),
            Some(held) => Ok(copy_from(held, at as usize, usize::MAX, into)),
        }
    }
}
