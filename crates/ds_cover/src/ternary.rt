//! The values of a table of up to three inputs for all rows of three values.
ghost use Rattle.std.specs.Prelude.{◌≡◌};
ghost use Rattle.ds_cover.specs.Ternary.{IsWordOf, coded_word};

use crate::mask::Mask;
use crate::rows::rows_word;

// The word of the values of a table, by its masks.
pub(crate) fn word_of(masks: &[Mask], on: bool) -> u64
    ensures { IsWordOf masks.now on result }
{
    let ones = [
        0x001c_71c7_1c71_c71c,
        0x0015_fc05_7f01_5fc0,
        0x0015_555f_fffc_0000,
    ];
    let zeros = [
        0x0013_4d34_d34d_34d3,
        0x0015_03f5_40fd_503f,
        0x0015_5550_0003_ffff,
    ];
    coded(rows_word(masks, &ones, &zeros), on)
}

// Codes of values out of two bits each, of which the lower says that it is not zero, and the upper
// that it is one; or of their inverses.
fn coded(word: u64, on: bool) -> u64
    ensures { result ≡ coded_word on word }
{
    let sure = word & 0x0015_5555_5555_5555;
    let ones = if on {
        (word / 2) & 0x0015_5555_5555_5555
    } else {
        sure ^ 0x0015_5555_5555_5555
    };
    ones | (((2 * sure) ^ word) & 0x002a_aaaa_aaaa_aaaa)
}
