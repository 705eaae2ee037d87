//! The word of a table.
ghost use Rattle.std.specs.Prelude.{◌≡◌, ◌<◌, ℕ, All, length};
ghost use Rattle.ds_cover.specs.Bank.{driven_at};
ghost use Rattle.ds_cover.specs.Cover.{value_at};
ghost use Rattle.ds_slices.specs.Picked.{IsPackedWord};
ghost use Rattle.ds_slices.specs.Turns.{turn_row};

use crate::bit::{bit_of, with_bit};
use crate::quick::quick_word;
use ds_base::{NetId, Row3};
use ds_cover::Bank;

// The word of a table, which has its value in each turn. The row is one to work in.
pub(crate) fn table_word(bank: &Bank, table: usize, words: &[u64], nets: &mut Row3) -> u64
    requires place { table < length bank.now }
    requires within { All (λ net. net < length words.now) (driven_at bank.now table).cover.inputs }
    requires nets { length nets.old ≡ length words.now }
    ensures same { length nets.new ≡ length nets.old }
    ensures value { IsPackedWord (driven_at bank.now table).cover words.now result }
{
    let quick = bank.quick(table);
    if quick.few {
        quick_word(quick, words)
    } else {
        word_by_turns(bank, table, words, nets)
    }
}

// The same, worked out turn by turn.
fn word_by_turns(bank: &Bank, table: usize, words: &[u64], nets: &mut Row3) -> u64
    requires place { table < length bank.now }
    requires within { All (λ net. net < length words.now) (driven_at bank.now table).cover.inputs }
    requires nets { length nets.old ≡ length words.now }
    ensures same { length nets.new ≡ length nets.old }
    ensures value { IsPackedWord (driven_at bank.now table).cover words.now result }
{
    let mut word = 0;
    for turn in 0..64 {
        set_nets(bank.inputs(table), words, turn, nets);
        word = with_bit(word, turn, bank.value(table, nets));
    }
    word
}

// Gives these nets their values of a turn.
fn set_nets(these: &[NetId], words: &[u64], turn: usize, nets: &mut Row3)
    requires turn { turn < 64 }
    requires within { All (λ net. net < length words.now) these.now }
    requires nets { length nets.old ≡ length words.now }
    ensures same { length nets.new ≡ length nets.old }
    ensures set { All (λ net. value_at nets.new net ≡ value_at (turn_row words.now turn) net)
        these.now }
{
    for net in these {
        nets.set(net.index(), bit_of(words[net.index()], turn));
    }
}
