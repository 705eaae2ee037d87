//! The registers behind a turn.
ghost use Rattle.std.specs.Prelude.{◌≡◌, ◌<◌, length, map, All};
ghost use Rattle.ds_cover.specs.Cover.{values_at};
ghost use Rattle.ds_slices.specs.Turns.{turn_row};

use crate::bit::bit_of;
use ds_base::Row3;
use ds_design::Register;

/// Gives each register what its data net has in a turn.
pub fn set_state(registers: &[Register], words: &[u64], turn: usize, state: &mut Row3)
    requires turn { turn < 64 }
    requires one_each { length state.old ≡ length registers.now }
    requires within { All (λ r. r.data_net < length words.now) registers.now }
    ensures value { state.new
        ≡ values_at (turn_row words.now turn) (map (λ r. r.data_net) registers.now) }
{
    for (i, register) in registers.iter().enumerate() {
        state.set(i, bit_of(words[register.data_net.index()], turn));
    }
}
