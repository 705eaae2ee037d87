//! The number of tokens in an entry of the marking.
ghost use Rattle.std.specs.Prelude.{◌≡◌, ◌≤◌, ◌<◌, length};
ghost use Rattle.std.specs.List.{after_first, list_all};
ghost use Rattle.std.specs.Char.{is_ascii_digit};
ghost use Rattle.ds_astg.specs.Word.{is_byte};
ghost use Rattle.ds_astg.specs.Marking.{is_number as may_be_number, number_in as number_of};
ghost use Rattle.ds_astg.specs.Marking.{tokens_of_entry as tokens_in, value_from};

use ds_lines::place_of;

/// The tokens of an entry: the number behind its `=`, one where there is none.
pub fn tokens_of(entry: &[u8]) -> Option<u8>
    ensures { result ≡ tokens_in entry.now }
{
    if place_of(entry, b'=') < entry.len() {
        number_in(behind(entry, b'='))
    } else {
        Some(1)
    }
}

/// What stands behind the first such byte.
pub fn behind<'a>(text: &'a [u8], byte: u8) -> &'a [u8]
    ensures { result.now ≡ after_first (is_byte byte) text.now }
{
    let place = place_of(text, byte);
    if place < text.len() {
        &text[place + 1..]
    } else {
        &[]
    }
}

// A number of one to three digits, at most 255.
fn number_in(text: &[u8]) -> Option<u8>
    ensures { result ≡ number_of text.now }
{
    if !is_number(text) {
        return None;
    }
    let value = value(text);
    if value < 256 { Some(value as u8) } else { None }
}

// Whether these are one to three digits.
fn is_number(text: &[u8]) -> bool
    ensures { result ≡ may_be_number text.now }
{
    0 < text.len() && text.len() < 4 && are_digits(text)
}

// Whether these are digits.
fn are_digits(text: &[u8]) -> bool
    ensures { result ≡ list_all is_ascii_digit text.now }
{
    text.iter().all(|byte| byte.is_ascii_digit())
}

// The number of at most three digits.
fn value(text: &[u8]) -> u32
    requires { length text.now < 4 }
    ensures { result ≡ value_from 0 text.now }
{
    let mut value = 0;
    for i in 0..text.len() {
        value = 10 * value + text[i].saturating_sub(48) as u32;
    }
    value
}
