//! Bits of a table's word, picked by the words of its inputs: of all turns at once.
ghost use Rattle.std.specs.Prelude.{◌≡◌, ◌+◌, ◌*◌, ◌<◌, ◌≤◌, ℕ, length, slice_index};
ghost use Rattle.std.specs.Int.{bit_at};

// At each place the bit of the second word where the choice is one, else that of the first.
fn choose(choice: u64, zero: u64, one: u64) -> u64
    ensures zeros { (k : ℕ) → bit_at choice k ≡ 0 → bit_at result k ≡ bit_at zero k }
    ensures ones { (k : ℕ) → bit_at choice k ≡ 1 → bit_at result k ≡ bit_at one k }
{
    zero ^ ((zero ^ one) & choice)
}

// One bit of a word at all places.
fn spread(truth: u64, place: u64) -> u64
    requires { place < 64 }
    ensures { (k : ℕ) → k < 64 → bit_at result k ≡ bit_at truth place }
{
    if (truth >> place) & 1 == 0 {
        0
    } else {
        u64::MAX
    }
}

// The bits by one input.
fn one(truth: u64, a: u64) -> u64
    ensures { (k : ℕ) → k < 64 → bit_at result k ≡ bit_at truth (bit_at a k) }
{
    choose(a, spread(truth, 0), spread(truth, 1))
}

// The bits by two inputs, the second of which counts so many places.
pub(crate) fn two(truth: u64, second: u64, a: u64, b: u64) -> u64
    requires { second < 64 }
    ensures { (k : ℕ) → k < 64 → bit_at result k ≡ bit_at truth (bit_at a k + second * bit_at b k) }
{
    choose(b, one(truth, a), one(truth >> second, a))
}

// The bits by three inputs, the third of which counts so many places.
pub(crate) fn three(truth: u64, third: u64, a: u64, b: u64, c: u64) -> u64
    requires { third < 64 }
    ensures { (k : ℕ) → k < 64 → bit_at result k
        ≡ bit_at truth (bit_at a k + 2 * bit_at b k + third * bit_at c k) }
{
    choose(c, two(truth, 2, a, b), two(truth >> third, 2, a, b))
}

// The bits by the first four inputs, the fourth of which counts so many places.
pub(crate) fn four(truth: u64, fourth: u64, words: &[u64; 6]) -> u64
    requires { fourth < 64 }
    ensures { (k : ℕ) → k < 64 → bit_at result k ≡ bit_at truth
        (bit_at (slice_index words.now 0) k + 2 * bit_at (slice_index words.now 1) k
        + 4 * bit_at (slice_index words.now 2) k + fourth * bit_at (slice_index words.now 3) k) }
{
    let zero = three(truth, 4, words[0], words[1], words[2]);
    let one = three(truth >> fourth, 4, words[0], words[1], words[2]);
    choose(words[3], zero, one)
}

// The bits by the first five inputs.
fn five(truth: u64, words: &[u64; 6]) -> u64
    ensures { (k : ℕ) → k < 64 → bit_at result k ≡ bit_at truth
        (bit_at (slice_index words.now 0) k + 2 * bit_at (slice_index words.now 1) k
        + 4 * bit_at (slice_index words.now 2) k + 8 * bit_at (slice_index words.now 3) k
        + 16 * bit_at (slice_index words.now 4) k) }
{
    choose(words[4], four(truth, 8, words), four(truth >> 16, 8, words))
}

// The bits by six inputs.
pub(crate) fn six(truth: u64, words: &[u64; 6]) -> u64
    ensures { (k : ℕ) → k < 64 → bit_at result k ≡ bit_at truth
        (bit_at (slice_index words.now 0) k + 2 * bit_at (slice_index words.now 1) k
        + 4 * bit_at (slice_index words.now 2) k + 8 * bit_at (slice_index words.now 3) k
        + 16 * bit_at (slice_index words.now 4) k + 32 * bit_at (slice_index words.now 5) k) }
{
    choose(words[5], five(truth, words), five(truth >> 32, words))
}
