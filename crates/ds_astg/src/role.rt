//! What a name is declared as.
ghost use Rattle.std.specs.Prelude.{◌≡◌, ◌≤◌};
ghost use Rattle.ds_astg.specs.Signals.{event_count, may_have as may_have_in};

/// A signal, which rises and falls, or a dummy, which is an event by itself.
#[derive(Clone, Copy, Debug, PartialEq, Eq)]
pub enum Role {
    Signal,
    Dummy,
}

impl Role {
    /// How many events a name has that is declared as such.
    pub fn count(self) -> u32
        ensures value { result ≡ event_count self }
        ensures few { result ≤ 2 }
    {
        match self {
            Role::Signal => 2,
            Role::Dummy => 1,
        }
    }
}

/// Whether a name that is declared as this, or not yet, may be declared as such.
pub fn may_have(declared: Option<Role>, role: Role) -> bool
    ensures { result ≡ may_have_in declared role }
{
    match declared {
        None => true,
        Some(Role::Signal) => matches!(role, Role::Signal),
        Some(Role::Dummy) => matches!(role, Role::Dummy),
    }
}
