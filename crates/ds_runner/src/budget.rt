ghost use Rattle.std.specs.Prelude.{◌≡◌, ◌<◌, ◌≤◌, ◌+◌};

/// How many workers there are, and how long each of them goes on.
#[derive(Clone, Copy)]
pub struct Budget {
    pub workers: u32,
    /// The most takes.
    pub takes: u64,
    /// The most firings.
    pub firings: u64,
    /// The most looks at nodes in rounds without a take.
    pub looks: u64,
}

impl Budget {
    /// Takes off a take, and the firings of a visit.
    pub fn spend(&mut self, fired: u64)
        requires takes { 0 < self.old.takes }
        requires firings { fired ≤ self.old.firings }
        ensures takes { self.new.takes < self.old.takes }
        ensures looks { self.new.looks ≡ self.old.looks }
        ensures firings { self.new.firings + fired ≡ self.old.firings }
    {
        self.takes -= 1;
        self.firings -= fired;
    }
}
