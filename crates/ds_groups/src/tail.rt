//! The last bytes of a pattern: a text that does not have them is refused before it is read.
ghost use Rattle.std.specs.Prelude.{◌≡◌, ◌+◌, ◌<◌, ◌≤◌, ℕ, true, length};
ghost use Rattle.ds_groups.specs.Stand.{IsNoStar};
ghost use Rattle.ds_groups.specs.Tail.{AreBytesAt, HasTail, ArePlainBefore, IsTail};

/// So many bytes are compared at a place of a text at most, so that its time stays linear.
const MOST: usize = 8;

/// Bytes of a pattern behind which there are only stars.
#[derive(Clone, Copy)]
pub struct Tail<'a> {
    /// The bytes, none of them a star.
    pub bytes: &'a [u8],
    /// How many bytes before them are no stars.
    pub before: usize,
    /// Whether a star stands before them.
    pub starred_before: bool,
    /// Whether a star stands behind them.
    pub starred_behind: bool,
}

/// The tail of a pattern.
pub(crate) fn tail_of(word: &[u8]) -> Tail<'_>
    ensures { IsTail word.now result }
{
    let end = end_of(word);
    let start = start_of(word, end);
    let before = plain_before(word, start);
    Tail {
        bytes: &word[start..end],
        before,
        starred_before: before < start,
        starred_behind: end < word.len(),
    }
}

// The place behind the last byte that is no star.
fn end_of(word: &[u8]) -> usize
    ensures { result ≤ length word.now }
{
    let mut end = word.len();
    'stars: while end > 0 && word[end - 1] == b'*' {
        end -= 1;
    }
    end
}

// The place where the bytes of the tail start.
fn start_of(word: &[u8], end: usize) -> usize
    requires { end ≤ length word.now }
    ensures within { result ≤ end }
    ensures plain { (k : ℕ) → result ≤ k → k < end → IsNoStar word.now k }
{
    let mut start = end;
    'bytes: while start > 0 && end - start < MOST && word[start - 1] != b'*' {
        start -= 1;
    }
    start
}

// How many bytes before a place are no stars.
fn plain_before(word: &[u8], place: usize) -> usize
    requires { place ≤ length word.now }
    ensures { ArePlainBefore word.now place result }
{
    let mut before = 0;
    for at in 0..place {
        if word[at] != b'*' {
            before += 1;
        }
    }
    before
}

/// Whether a text may have the tail. Where the answer is false, it does not have it.
pub(crate) fn may_have(tail: &Tail<'_>, text: &[u8]) -> bool
    ensures { HasTail tail.now text.now → result ≡ true }
{
    if text.len() < tail.bytes.len() {
        return false;
    }
    let end = text.len() - tail.bytes.len();
    if end < tail.before {
        return false;
    }
    let first = if tail.starred_behind {
        tail.before
    } else {
        end
    };
    let last = if tail.starred_before {
        end
    } else {
        tail.before
    };
    stands_between(tail.bytes, text, first, last)
}

// Whether bytes stand in a text at one of these places, or at the last one.
fn stands_between(bytes: &[u8], text: &[u8], first: usize, last: usize) -> bool
    requires { last + length bytes.now ≤ length text.now }
    ensures { (place : ℕ) → first ≤ place → place ≤ last → AreBytesAt bytes.now text.now place
        → result ≡ true }
{
    let mut at = first;
    'seeking: while at < last {
        if stands_at(bytes, text, at) {
            return true;
        }
        at += 1;
    }
    stands_at(bytes, text, last)
}

// Whether bytes stand at a place of a text. The last byte is compared first: names differ there.
fn stands_at(bytes: &[u8], text: &[u8], place: usize) -> bool
    requires { place + length bytes.now ≤ length text.now }
    ensures { AreBytesAt bytes.now text.now place → result ≡ true }
{
    let mut left = bytes.len();
    'comparing: while left > 0 {
        left -= 1;
        if text[place + left] != bytes[left] {
            return false;
        }
    }
    true
}
