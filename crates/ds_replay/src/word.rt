//! The number on a line.
ghost use Rattle.std.specs.Prelude.{◌≡◌, map};
ghost use Rattle.ds_replay.specs.Word.{turn_of as turn_of_words};

use ds_rows::{is_short, short_value};

/// The number on a line of two words, the second one to ten digits; `None` for another line.
pub fn turn_of(words: &[&[u8]]) -> Option<u64>
    ensures { result ≡ turn_of_words (map (λ w. w.now) words.now) }
{
    if words.len() != 2 || !is_short(words[1]) {
        return None;
    }
    Some(short_value(words[1]))
}
