//! The groups of the tables that the nodes of a plan settle, made once for all windows of a run.
ghost use Rattle.std.specs.Prelude.{IfOk};
ghost use Rattle.ds_run.specs.Openings.{HasConeGroups};

use ds_base::OutOfMemory;
use ds_latch::Latches;
use ds_opening::{TableGroups, groups_of};
use ds_settle::Cone;
use ds_split::cones_of;
use std::alloc::{AllocError, Global};

/// The groups of the cones of OUT, M0, M1, .., and how much work each cone is. They are made of a
/// netlist and its clusters alone, so they serve a plan whatever registers it begins with.
pub struct ConeGroups<'n> {
    pub groups: TableGroups<'n>,
    /// How many tables and sources each cone has.
    pub sizes: Vec<u64>,
}

impl<'n> Drop for ConeGroups<'n> {
    fn drop(self) {
        let ConeGroups {
            groups: _,
            sizes: _,
        } = self;
    }
}

impl<'n> ConeGroups<'n> {
    /// Of the latches of a plan.
    pub fn of(alloc: Global, latches: &Latches<'n>) -> Result<Self, OutOfMemory>
        ensures { IfOk result (λ cones. HasConeGroups latches.now cones.groups) }
    {
        // Read for the facts that their numbers name what is there.
        let (_design, _edges) = (latches.netlist().design(), latches.edges());
        let cones = cones_of(alloc, latches)?;
        let sizes = sizes_of(alloc, cones.as_slice())?;
        let groups = groups_of(alloc, latches, cones)?;
        Ok(ConeGroups { groups, sizes })
    }
}

// How many tables and sources each cone has.
fn sizes_of(alloc: Global, cones: &[Cone]) -> Result<Vec<u64>, AllocError> {
    cones.iter().map(|cone| size_of_cone(cone)).collect(alloc)
}

// The same of one cone.
fn size_of_cone(cone: &Cone) -> u64 {
    (cone.tables().len() as u64).saturating_add(cone.sources().len() as u64)
}
