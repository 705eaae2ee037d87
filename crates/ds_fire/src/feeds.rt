//! What the openings of the nodes that settle read.
ghost use Rattle.std.specs.Prelude.{◌<◌, ◌^◌, IfOk};
ghost use Rattle.ds_design.specs.InRange.{IsInRange};
ghost use Rattle.ds_latch.specs.Node.{nodes};
ghost use Rattle.ds_latch.specs.Plan.{IsSplit};
ghost use Rattle.ds_fire.specs.Feeds.{AreFeeds};

use crate::homes::{NetHome, homes_of};
use ds_base::OutOfMemory;
use ds_latch::Latches;
use ds_settle::Cone;
use ds_split::cones_of;
use std::alloc::Global;

// The cones of OUT, M0, M1, .., and for each net of IN or of a slave, where its value is kept.
pub(crate) struct Feeds {
    pub(crate) cones: Vec<Cone>,
    pub(crate) homes: Vec<NetHome>,
}

impl Drop for Feeds {
    fn drop(self) {
        let Feeds { cones: _, homes: _ } = self;
    }
}

impl Feeds {
    // Those of a split design.
    pub(crate) fn of(alloc: Global, latches: &Latches) -> Result<Self, OutOfMemory>
        requires few { nodes latches.now < 2 ^ 32 }
        requires design { IsInRange latches.now.circuit × IsSplit latches.now }
        ensures { IfOk result (AreFeeds latches.now) }
    {
        Ok(Feeds {
            cones: cones_of(alloc, latches)?,
            homes: homes_of(alloc, latches)?,
        })
    }
}
