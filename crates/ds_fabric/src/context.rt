ghost use Rattle.std.specs.Prelude.{◌≡◌};
ghost use Rattle.ds_fabric.specs.Base.{IsBuilt};

use crate::compute::Compute;
use crate::counts::WordBoard;
use crate::incoming::Incoming;
use crate::index::Index;
use ds_rule::{RunValues, TableRun};

/// What stands still while a run is fired: its table, who computes its rows, the arcs into its
/// events, and where rows and edges begin.
#[derive(Drop)]
pub struct Context<'a, V: RunValues, C: Compute> {
    pub board: &'a WordBoard<V>,
    pub run: &'a TableRun<V>,
    pub openings: &'a C,
    pub incoming: &'a Incoming,
    pub index: &'a Index,
    pub ghost built: { IsBuilt board.now.table_id board.now.key run.now index.now },
    pub ghost computes: { C.run openings.now ≡ run.now },
}
