ghost use Rattle.std.specs.Prelude.{◌≡◌, ◌<◌, length, slice_index};

use ds_base::EventId;
use std::marker::Model;

/// A number for each event. Contracts see the list of the numbers.
#[derive(Drop)]
pub struct Ranks {
    numbers: Vec<u64>,
}

impl Model for Ranks {
    ghost use Rattle.std.specs.Prelude.{ℕ, List};

    ghost Value = { List ℕ };

    ghost view = { λ ranks. ranks.numbers.items };
}

impl Ranks {
    /// Of one number an event.
    pub fn of(numbers: Vec<u64>) -> Self
        ensures { result ≡ numbers.items }
    {
        Ranks { numbers }
    }

    /// The number of an event.
    pub fn at(&self, event: EventId) -> u64
        requires { event < length self.now }
        ensures { result ≡ slice_index self.now event }
    {
        self.numbers[event.index()]
    }
}
