ghost use Rattle.std.specs.Prelude.{◌≡◌};
ghost use Rattle.ds_runner.specs.Work.{fired_count};

/// The events that a visit to a node fired, one after the other.
#[derive(Clone, Copy)]
pub struct Fired {
    pub first: Option<usize>,
    pub second: Option<usize>,
}

impl Fired {
    /// How many there are.
    pub fn count(self) -> u64
        ensures { result ≡ fired_count self }
    {
        self.first.is_some() as u64 + self.second.is_some() as u64
    }
}
