//! Tables of five and six inputs by one word of known values.
ghost use Rattle.std.specs.Prelude.{◌≡◌};
ghost use Rattle.std.specs.Int.{bit_at};
ghost use Rattle.ds_cover.specs.Kept.{bit_value};

use crate::shelf::SmallTable;
use crate::{Quick, value_of_bit};
use ds_base::{NetId, Value};

/// A table of five inputs.
#[derive(Clone, Copy)]
pub struct Five {
    /// The values, that of zeros at the lowest bit.
    pub truth: u32,
    /// The inputs.
    pub nets: [NetId; 5],
    /// The net that the table drives.
    pub output: NetId,
}

impl SmallTable for Five {
    ghost width = { 5 };

    ghost small = { λ t. record { nets = t.nets; truth = t.truth; output = t.output } };

    fn of(quick: &Quick) -> Self {
        Five {
            truth: (quick.truth % 0x1_0000 + 0x1_0000 * (quick.truth / 0x1_0000_0000_0000)) as u32,
            nets: [
                quick.nets[0],
                quick.nets[1],
                quick.nets[2],
                quick.nets[3],
                quick.nets[4],
            ],
            output: quick.output,
        }
    }

    fn value(&self, nets: &[Value]) -> Value {
        let a = nets[self.nets[0].index()].code();
        let b = nets[self.nets[1].index()].code();
        let c = nets[self.nets[2].index()].code();
        let d = nets[self.nets[3].index()].code();
        let e = nets[self.nets[4].index()].code();
        let place = a + 2 * (b + 2 * (c + 2 * (d + 2 * e)));
        value_of_bit((u64::from(self.truth) >> place) & 1)
    }

    fn output(&self) -> usize {
        self.output.index()
    }
}

/// A table of six inputs.
#[derive(Clone, Copy)]
pub struct Six {
    /// The values, that of zeros at the lowest bit.
    pub truth: u64,
    /// The inputs.
    pub nets: [NetId; 6],
    /// The net that the table drives.
    pub output: NetId,
}

impl SmallTable for Six {
    ghost width = { 6 };

    ghost small = { λ t. record { nets = t.nets; truth = t.truth; output = t.output } };

    fn of(quick: &Quick) -> Self {
        Six {
            truth: quick.truth,
            nets: quick.nets,
            output: quick.output,
        }
    }

    fn value(&self, nets: &[Value]) -> Value {
        let a = nets[self.nets[0].index()].code();
        let b = nets[self.nets[1].index()].code();
        let c = nets[self.nets[2].index()].code();
        let d = nets[self.nets[3].index()].code();
        let e = nets[self.nets[4].index()].code();
        let f = nets[self.nets[5].index()].code();
        let place = a + 2 * (b + 2 * (c + 2 * (d + 2 * (e + 2 * f))));
        bit_in(self.truth, place)
    }

    fn output(&self) -> usize {
        self.output.index()
    }
}

// The value of a bit of a word. Only where an input is unknown is the place past the last bit.
fn bit_in(word: u64, place: u64) -> Value
    ensures { result ≡ bit_value (bit_at word place) }
{
    if place < 64 {
        value_of_bit((word >> place) & 1)
    } else {
        Value::Zero
    }
}
