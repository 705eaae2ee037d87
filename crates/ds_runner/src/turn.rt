ghost use Rattle.std.specs.Prelude.{◌≡◌};

use crate::plays::Seated;
use std::marker::Model;

/// What one thread may take from a turnstile, and has out.
#[derive(Drop)]
pub struct Turn {
    pub(crate) seat: Seated,
    pub(crate) permits: u32,
}

impl Model for Turn {
    ghost use Rattle.ds_runner.specs.Shown.{Turned, IsTurn};

    ghost Value = { Turned };

    ghost view = { λ t. record { table_id = t.seat.table_id; view = t.seat.me.0 } };

    ghost invariant = { λ t. IsTurn t.seat.table_id t.seat.me t.permits };
}

impl Turn {
    /// How many permits it has.
    pub fn permits(&self) -> u32
        ensures { result ≡ self.now.view.permits }
    {
        self.permits
    }
}
