//! What is known of a name that is declared.
ghost use Rattle.std.specs.Prelude.{◌≡◌, ◌≤◌, Some};
ghost use Rattle.ds_astg.specs.Node.{event_by};

use crate::role::Role;
use crate::word::{fall_of, is_signed};

/// What a name is declared as, and the number of its first event.
#[derive(Clone, Copy, Debug, PartialEq, Eq)]
pub struct Declaration {
    pub role: Role,
    pub first: u32,
}

impl Declaration {
    /// The event for which a word with this name stands.
    pub fn event(self, word: &[u8]) -> Option<u32>
        requires { self.first ≤ 131072 }
        ensures { result ≡ event_by (Some self.role) self.first word.now }
    {
        match self.role {
            Role::Signal if is_signed(word) => Some(self.first + fall_of(word)),
            Role::Dummy if !is_signed(word) => Some(self.first),
            Role::Signal | Role::Dummy => None,
        }
    }
}
