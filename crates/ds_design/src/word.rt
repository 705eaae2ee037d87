//! A word of a text, lent.
ghost use Rattle.std.specs.Prelude.{◌≡◌};

use std::marker::Model;

/// A word of a text, where it stands there. Contracts see its bytes.
#[derive(Drop)]
pub struct Word<'a> {
    bytes: &'a [u8],
}

impl<'a> Model for Word<'a> {
    ghost use Rattle.std.specs.Prelude.{List, ℕ};

    ghost Value = { List ℕ };

    ghost view = { λ w. w.bytes.now };
}

impl<'a> Word<'a> {
    /// Of its bytes.
    pub fn of(bytes: &'a [u8]) -> Self
        ensures { result ≡ bytes.entry.now }
    {
        Word { bytes }
    }

    /// Its bytes.
    pub fn get(&self) -> &'a [u8]
        ensures { result.now ≡ self.now }
    {
        self.bytes
    }
}
