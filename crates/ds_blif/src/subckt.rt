//! Uses of models.
ghost use Rattle.std.specs.Prelude.{◌≡◌, ◌<◌, ◌≤◌, length, IfOk, drop, []};
ghost use Rattle.std.specs.List.{before_first, position_or_len};
ghost use Rattle.ds_lines.specs.Words.{texts};
ghost use Rattle.ds_blif.specs.Form.{is_equals, is_pair as is_pair_word, formal_of};
ghost use Rattle.ds_blif.specs.Form.{has_bad_pairs as has_bad_pairs_word};
ghost use Rattle.ds_blif.specs.Fault.{subckt_fault as subckt_fault_in};

use crate::fault::BlifKind;
use ds_base::OutOfMemory;
use ds_lines::{Names, word};
use std::alloc::Global;

/// Where the first `=` of a word stands, its length where there is none.
pub fn place_of_equals(word: &[u8]) -> usize
    ensures value { result ≡ position_or_len is_equals word.now }
    ensures within { result ≤ length word.now }
{
    let mut place = 0;
    'finding: while place < word.len() && word[place] != b'=' {
        place += 1;
    }
    place
}

fn is_pair(word: &[u8]) -> bool
    ensures { result ≡ is_pair_word word.now }
{
    let place = place_of_equals(word);
    0 < place && place < word.len()
}

/// What stands before the first `=`.
pub fn formal(word: &[u8]) -> &[u8]
    ensures { result.now ≡ formal_of word.now }
{
    &word[..place_of_equals(word)]
}

// Some word is no pair, or has the formal of a word before it.
fn has_bad_pairs(alloc: Global, words: &[&[u8]]) -> Result<bool, OutOfMemory>
    ensures { IfOk result (λ r. r ≡ has_bad_pairs_word [] (texts words.now)) }
{
    let mut formals = Names::new(alloc);
    for word in words {
        if !is_pair(*word) {
            return Ok(true);
        }
        let (_, added) = formals.insert(formal(*word))?;
        if !added {
            return Ok(true);
        }
    }
    Ok(false)
}

/// The fault of a use of a model.
pub fn subckt_fault(alloc: Global, words: &[&[u8]]) -> Result<Option<BlifKind>, OutOfMemory>
    ensures { IfOk result (λ k. k ≡ subckt_fault_in (texts words.now)) }
{
    let bad = words.len() < 2 || has_bad_pairs(alloc, &words[2..])?;
    Ok(if bad { Some(BlifKind::BadWords) } else { None })
}
