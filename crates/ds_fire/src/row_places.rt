//! Places of rows.
ghost use Rattle.std.specs.Prelude.{◌≡◌, ◌+◌, ◌<◌, ◌≤◌, ◌^◌};
ghost use Rattle.ds_fire.specs.Turn.{AreTurnPlaces};

use ds_latch::Latches;

// How many places a node has, the place of an opening, and that of the one after it.
#[derive(Clone, Copy)]
pub(crate) struct RowPlaces {
    pub(crate) each: usize,
    pub(crate) same: usize,
    pub(crate) next: usize,
}

impl RowPlaces {
    // Of the opening with this number.
    pub(crate) fn of(latches: &Latches, opened: usize) -> Self
        requires { opened < 2 ^ 32 }
        ensures { AreTurnPlaces latches.now opened result }
    {
        let each = latches.slack() as usize + 1;
        RowPlaces {
            each,
            same: opened % each,
            next: (opened + 1) % each,
        }
    }
}
