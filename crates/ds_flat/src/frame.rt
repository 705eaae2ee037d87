//! A copy that is being taken.
ghost use Rattle.std.specs.Prelude.{◌≡◌};

use crate::lent::Lent;
use crate::scope::Scope;

/// A copy whose commands are being taken: the place of its model, the model's name, and the
/// commands that are left.
#[derive(Drop)]
pub struct Open<'b, 'm> {
    pub model: usize,
    pub name: &'m [u8],
    pub scope: Scope<'m>,
    pub commands: &'b [Lent<'m>],
}

impl<'b, 'm> Open<'b, 'm> {
    /// The same copy with these commands left.
    pub fn with(self, commands: &'b [Lent<'m>]) -> Self
        ensures { result ≡ record self.entry { commands = commands.entry } }
    {
        let Open {
            model,
            name,
            scope,
            ..
        } = self;
        Open {
            model,
            name,
            scope,
            commands,
        }
    }
}
