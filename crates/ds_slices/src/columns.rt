//! The words of the columns: bit k is the value in the vector of turn k.
ghost use Rattle.std.specs.Prelude.{◌≡◌, ◌≢◌, ◌<◌, ◌≤◌, ℕ, All, AllPairs, length, slice_index};
ghost use Rattle.ds_slices.specs.Turns.{IsColumnWord};

use crate::bit::with_bit;
use ds_base::NetId;
use ds_design::Vectors;

// Sets the words of the columns, in up to 64 turns from one on.
pub(crate) fn set_columns(columns: &[NetId], vectors: &Vectors, from: usize, words: &mut [u64])
    requires within { All (λ net. net < length words.old) columns.now }
    requires once { AllPairs (λ a b. a ≢ b) columns.now }
    requires width { vectors.now.width ≡ length columns.now }
    requires from { from ≤ length vectors.now.rows }
    ensures same { length words.new ≡ length words.old }
    ensures set { (i : ℕ) → i < length columns.now → IsColumnWord vectors.now.rows from i
        (slice_index words.new (slice_index columns.now i)) }
    ensures others { (net : ℕ)
        → ((i : ℕ) → i < length columns.now → slice_index columns.now i ≢ net)
        → slice_index words.new net ≡ slice_index words.old net }
{
    for (i, net) in columns.iter().enumerate() {
        words[net.index()] = column_word(vectors, from, i);
    }
}

// The word of a column.
fn column_word(vectors: &Vectors, from: usize, column: usize) -> u64
    requires from { from ≤ length vectors.now.rows }
    requires column { column < vectors.now.width }
    ensures { IsColumnWord vectors.now.rows from column result }
{
    let count = (vectors.count() - from).min(64);
    let mut word = 0;
    for turn in 0..count {
        word = with_bit(word, turn, vectors.row(from + turn).value(column));
    }
    word
}
