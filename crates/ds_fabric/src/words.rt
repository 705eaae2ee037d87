//! Values and words: 32 values a word, two bits each.
ghost use Rattle.std.specs.Prelude.{ℕ, ◌≡◌, ◌<◌, ◌≤◌, ◌+◌, ◌*◌, ◌%◌, ◌/◌, length, slice_index};
ghost use Rattle.std.specs.Prelude.{slice_index_or};
ghost use Rattle.ds_base.specs.Values.{Row};
ghost use Rattle.ds_base.specs.Word.{word_of, count_of_words};
ghost use Rattle.ds_base.specs.declared.value.Value.TheVariants.{Zero};
ghost use Rattle.ds_fabric.specs.Unpacked.{IsPacked, HasWord};

use ds_base::{Row3, Value};

/// Reads a row back from its value words.
pub fn unpack(words: &[u64], row: &mut Row3)
    requires { length words.now ≡ count_of_words (length row.old) }
    ensures value { (values : Row) → length values ≡ length row.old
        → IsPacked values words.now → row.new ≡ values }
    ensures same { length row.new ≡ length row.old }
{
    for i in 0..words.len() {
        set_word(row, i, words[i]);
    }
}

// Sets values 32 i and on from a word, as far as the row goes.
fn set_word(row: &mut Row3, i: usize, word: u64)
    requires { 32 * i < length row.old }
    ensures value { (values : Row) → length values ≡ length row.old → word ≡ word_of values i
        → HasWord values row.new i }
    ensures same { (k : ℕ) → k < 32 * i
        → slice_index_or row.new k Zero ≡ slice_index_or row.old k Zero }
    ensures length { length row.new ≡ length row.old }
{
    let mut rest = word;
    for j in 0..(row.len() - 32 * i).min(32) {
        row.set(32 * i + j, Value::of_code(rest % 4));
        rest /= 4;
    }
}
