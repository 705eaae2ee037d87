//! Rows of nets as words of 32 values.
ghost use Rattle.std.specs.Prelude.{◌≡◌, ◌≤◌, ◌<◌, ◌+◌, ◌*◌, IsTrue, ℕ};
ghost use Rattle.std.specs.Prelude.{◌++◌, length, take, drop, All, vec_len, vec_capacity};
ghost use Rattle.ds_base.specs.Values.{Row};
ghost use Rattle.ds_base.specs.Word.{count_of_words, number_of_values, word_of};
ghost use Rattle.ds_cover.specs.Cover.{values_at};
ghost use Rattle.ds_settle.specs.Settle.{LeavesOthers};
ghost use Rattle.ds_opening.specs.Packed.{AreAsBefore, Learns, packed};

use ds_base::{NetId, Row3, Value, words_of};

// The values by their two bits. No value has both bits set.
const VALUES: [Value; 4] = [Value::Zero, Value::One, Value::Unknown, Value::Unknown];

// Puts the words of these nets' values behind what stands in `into`.
pub(crate) fn push_words(nets: &Row3, these: &[NetId], into: &mut Vec<u64>)
    requires within { All (λ net. net < length nets.now) these.now }
    requires room { vec_len into.old + count_of_words (length these.now) ≤ vec_capacity into.old }
    ensures value { into.new.items ≡ into.old.items ++ packed (values_at nets.now these.now) }
    ensures room { vec_capacity into.new ≡ vec_capacity into.old }
{
    for i in 0..words_of(these.len()) {
        into.push_reserved(word_at(nets, these, i));
    }
}

// Puts the words of a row behind what stands in `into`.
pub(crate) fn push_row(row: &Row3, into: &mut Vec<u64>)
    requires room { vec_len into.old + count_of_words (length row.now) ≤ vec_capacity into.old }
    ensures value { into.new.items ≡ into.old.items ++ packed row.now }
    ensures room { vec_capacity into.new ≡ vec_capacity into.old }
{
    for i in 0..words_of(row.len()) {
        into.push_reserved(row.word(i));
    }
}

// Puts words behind what stands in `into`.
pub(crate) fn push_all(words: &[u64], into: &mut Vec<u64>)
    requires room { vec_len into.old + length words.now ≤ vec_capacity into.old }
    ensures value { into.new.items ≡ into.old.items ++ words.now }
    ensures room { vec_capacity into.new ≡ vec_capacity into.old }
{
    for word in words {
        into.push_reserved(*word);
    }
}

// Word i of these nets' values.
fn word_at(nets: &Row3, these: &[NetId], i: usize) -> u64
    requires within { All (λ net. net < length nets.now) these.now }
    requires inside { 32 * i < length these.now }
    ensures { result ≡ word_of (values_at nets.now these.now) i }
{
    word_from(nets, nets_of_word(these, i))
}

// The number of these nets' values, the first of them the lowest.
fn word_from(nets: &Row3, these: &[NetId]) -> u64
    requires within { All (λ net. net < length nets.now) these.now }
    requires few { length these.now ≤ 32 }
    ensures { result ≡ number_of_values (values_at nets.now these.now) }
{
    let mut word = 0;
    for i in (0..these.len()).rev() {
        word = nets.value(these[i].index()).code() + 4 * word;
    }
    word
}

// Gives these nets the values that stand in words. Where it tells true, no net has changed.
pub(crate) fn put_values(words: &[u64], these: &[NetId], nets: &mut Row3) -> bool
    requires within { All (λ net. net < length nets.old) these.now }
    requires words { length words.now ≡ count_of_words (length these.now) }
    ensures value { (foreseen : Row) → words.now ≡ packed (values_at foreseen these.now)
        → Learns foreseen these.now nets.old nets.new }
    ensures others { LeavesOthers these.now nets.old nets.new }
    ensures same { length nets.new ≡ length nets.old }
    ensures stayed { IsTrue result → AreAsBefore nets.old nets.new }
{
    put_words(words, these, nets.values_mut())
}

// The same on the values that a row lends, which no store moves.
fn put_words(words: &[u64], these: &[NetId], nets: &mut [Value]) -> bool
    requires within { All (λ net. net < length nets.old) these.now }
    requires words { length words.now ≡ count_of_words (length these.now) }
    ensures value { (foreseen : Row) → words.now ≡ packed (values_at foreseen these.now)
        → Learns foreseen these.now nets.old nets.new }
    ensures others { LeavesOthers these.now nets.old nets.new }
    ensures same { length nets.new ≡ length nets.old }
    ensures stayed { IsTrue result → AreAsBefore nets.old nets.new }
{
    // Most rows are one word.
    if words.len() == 1 {
        return put_word(words[0], these, nets);
    }
    let mut stayed = true;
    for i in 0..words.len() {
        if !put_word(words[i], nets_of_word(these, i), nets) {
            stayed = false;
        }
    }
    stayed
}

// Gives these nets the values that stand in a word, the first of them the lowest. Where it tells
// true, no net has changed.
fn put_word(word: u64, these: &[NetId], nets: &mut [Value]) -> bool
    requires within { All (λ net. net < length nets.old) these.now }
    ensures value { (foreseen : Row) → word ≡ number_of_values (values_at foreseen these.now)
        → Learns foreseen these.now nets.old nets.new }
    ensures others { LeavesOthers these.now nets.old nets.new }
    ensures same { length nets.new ≡ length nets.old }
    ensures stayed { IsTrue result → AreAsBefore nets.old nets.new }
{
    let mut rest = word;
    let mut stayed = true;
    for net in these {
        let place = net.index();
        let value = VALUES[(rest % 4) as usize];
        if nets[place] != value {
            stayed = false;
        }
        nets[place] = value;
        rest /= 4;
    }
    stayed
}

// The nets of word i: 32 of them, or as many as are left.
fn nets_of_word(these: &[NetId], i: usize) -> &[NetId]
    requires { 32 * i < length these.now }
    ensures { result.now ≡ take 32 (drop (32 * i) these.now) }
{
    let rest = &these[32 * i..];
    if rest.len() < 32 { rest } else { &rest[..32] }
}
