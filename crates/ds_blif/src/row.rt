//! Rows of a table.
ghost use Rattle.std.specs.Prelude.{◌≡◌, ◌<◌, length, option_map};
ghost use Rattle.std.specs.List.{list_all};
ghost use Rattle.ds_lines.specs.Words.{texts};
ghost use Rattle.ds_blif.specs.Form.{is_row_form, is_output as is_output_word, is_plane_byte};
ghost use Rattle.ds_blif.specs.Form.{output_of};
ghost use Rattle.ds_blif.specs.Fault.{row_fault as row_fault_in, differs as differs_from};

use crate::fault::BlifKind;
use crate::word::is;
use ds_lines::word;

fn is_output(word: &[u8]) -> bool
    ensures { result ≡ is_output_word word.now }
{
    is(word, b"0") || is(word, b"1")
}

// Only 0, 1 and - stand in the word.
fn is_plane(word: &[u8]) -> bool
    ensures { result ≡ list_all is_plane_byte word.now }
{
    for byte in word {
        if *byte != b'0' && *byte != b'1' && *byte != b'-' {
            return false;
        }
    }
    true
}

// A row for so many inputs.
#[tactic(auto, unfolding(crate::specs::Form::is_row_form))]
fn has_row_form(width: usize, words: &[&[u8]]) -> bool
    ensures { result ≡ is_row_form width (texts words.now) }
{
    if width == 0 {
        words.len() == 1 && is_output(word(words, 0))
    } else {
        words.len() == 2
            && word(words, 0).len() == width
            && is_plane(word(words, 0))
            && is_output(word(words, 1))
    }
}

/// The output of a row, its last word.
pub fn output<'a>(words: &[&'a [u8]]) -> &'a [u8]
    requires { 0 < length words.now }
    ensures { result.now ≡ output_of (texts words.now) }
{
    word(words, words.len() - 1)
}

fn differs(output: Option<&[u8]>, word: &[u8]) -> bool
    ensures { result ≡ differs_from (option_map (λ w. w.now) output.entry) word.now }
{
    match output {
        None => false,
        Some(first) => !is(first, word),
    }
}

/// The fault of a row, where these are the inputs of the table before it and the output of its
/// first row.
pub fn row_fault(table: Option<usize>, first: Option<&[u8]>, words: &[&[u8]]) -> Option<BlifKind>
    requires { 0 < length words.now }
    ensures { result ≡ row_fault_in table (option_map (λ w. w.now) first.entry) (texts words.now) }
{
    match table {
        None => Some(BlifKind::RowWithoutTable),
        Some(width) => {
            if !has_row_form(width, words) {
                Some(BlifKind::BadRow)
            } else if differs(first, output(words)) {
                Some(BlifKind::MixedRows)
            } else {
                None
            }
        }
    }
}
