ghost use Rattle.ds_fabric.specs.Joined.{AreWidened};

/// Room for what a firing needs: `from` for what its opening reads, `told` for what it tells.
pub struct Buffers {
    pub from: Vec<u64>,
    pub told: Vec<u64>,
}

impl Drop for Buffers {
    fn drop(self) {
        let Buffers { from: _, told: _ } = self;
    }
}

impl Buffers {
    /// Has as much room as the other too.
    pub fn widen(&mut self, other: Buffers)
        ensures { AreWidened self.old other self.new }
    {
        let Buffers { from, told } = other;
        if self.from.capacity() < from.capacity() {
            self.from = from;
        }
        if self.told.capacity() < told.capacity() {
            self.told = told;
        }
    }
}
