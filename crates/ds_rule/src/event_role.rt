ghost use Rattle.std.specs.Prelude.{◌≡◌};
ghost use Rattle.ds_rule.specs.Event.{fired_of, is_opening};

/// What an event is of its node: the opening or the closing of a latch, or the one event of another
/// node.
#[derive(Clone, Copy)]
pub enum EventRole {
    Opening,
    Closing,
    Alone,
}

impl EventRole {
    /// How often such an event has fired, where its node has fired so often: a latch opens first.
    pub fn turns(self, fired: u64) -> u64
        ensures { result ≡ fired_of self fired }
    {
        match self {
            EventRole::Opening => fired / 2 + fired % 2,
            EventRole::Closing => fired / 2,
            EventRole::Alone => fired,
        }
    }

    /// Such an event is an opening.
    pub fn opens(self) -> bool
        ensures { result ≡ is_opening self }
    {
        match self {
            EventRole::Opening => true,
            _ => false,
        }
    }
}
