//! Counts of failed reads, one for each kind of file, by which contracts tell which read has
//! failed.
ghost use Rattle.std.specs.Prelude.{◌≡◌, ◌≢◌, ◌≤◌};

use crate::Which;

/// How often reads of each kind have failed.
#[derive(Drop)]
pub struct Faults {
    pub net: u64,
    pub graph: u64,
    pub vectors: u64,
    pub log: u64,
    pub delays: u64,
    pub groups: u64,
}

impl Faults {
    ghost use Rattle.ds_outside.specs.Memory.{faults_of};
    ghost use Rattle.ds_outside.specs.Fault.{Rose};

    // Nothing has failed.
    pub(crate) fn none() -> Self
        ensures { (w : _) → faults_of result w ≡ 0 }
    {
        Faults {
            net: 0,
            graph: 0,
            vectors: 0,
            log: 0,
            delays: 0,
            groups: 0,
        }
    }

    // Counts one fault more of a kind.
    pub(crate) fn raise(&mut self, which: Which)
        ensures rose { Rose (faults_of self.old which) (faults_of self.new which) }
        ensures never_falls { (w : _) → faults_of self.old w ≤ faults_of self.new w }
        ensures others { (w : _) → w ≢ which → faults_of self.new w ≡ faults_of self.old w }
    {
        match which {
            Which::Net => self.net = self.net.saturating_add(1),
            Which::Graph => self.graph = self.graph.saturating_add(1),
            Which::Vectors => self.vectors = self.vectors.saturating_add(1),
            Which::Log => self.log = self.log.saturating_add(1),
            Which::Delays => self.delays = self.delays.saturating_add(1),
            Which::Groups => self.groups = self.groups.saturating_add(1),
        }
    }
}
