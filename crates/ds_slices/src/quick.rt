//! A table of one to six inputs, of all turns at once.
ghost use Rattle.std.specs.Prelude.{◌≡◌, ◌<◌, ℕ, All, length, slice_index, true};
ghost use Rattle.ds_cover.specs.Kept.{AreThree};
ghost use Rattle.ds_slices.specs.Picked.{IsPicked};

use crate::pick::{four, six, three, two};
use ds_cover::Quick;

// The bits of the table's word that the words of its inputs number.
pub(crate) fn quick_word(quick: &Quick, words: &[u64]) -> u64
    requires within { All (λ net. net < length words.now) quick.now.nets }
    requires three { quick.now.at_most_three ≡ true → AreThree quick.now.nets }
    ensures { IsPicked quick.now words.now result }
{
    if quick.at_most_three {
        three_word(quick, words)
    } else {
        six_word(quick, words)
    }
}

// The same for one to three inputs.
fn three_word(quick: &Quick, words: &[u64]) -> u64
    requires within { All (λ net. net < length words.now) quick.now.nets }
    requires three { AreThree quick.now.nets }
    ensures { IsPicked quick.now words.now result }
{
    let a = words[quick.nets[0].index()];
    let b = words[quick.nets[1].index()];
    let c = words[quick.nets[2].index()];
    if c == b {
        two(quick.truth, 62, a, b)
    } else {
        three(quick.truth, 60, a, b, c)
    }
}

// The same for one to six inputs.
fn six_word(quick: &Quick, words: &[u64]) -> u64
    requires within { All (λ net. net < length words.now) quick.now.nets }
    ensures { IsPicked quick.now words.now result }
{
    let inputs = [
        words[quick.nets[0].index()],
        words[quick.nets[1].index()],
        words[quick.nets[2].index()],
        words[quick.nets[3].index()],
        words[quick.nets[4].index()],
        words[quick.nets[5].index()],
    ];
    if inputs[4] == inputs[3] && inputs[5] == inputs[3] {
        four(quick.truth, 56, &inputs)
    } else {
        six(quick.truth, &inputs)
    }
}
