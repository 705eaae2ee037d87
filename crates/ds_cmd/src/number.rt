//! Numbers on the command line: one to twenty decimal digits, and within a range.
ghost use Rattle.std.specs.Prelude.{◌≡◌};
ghost use Rattle.std.specs.Char.{is_ascii_digit};
ghost use Rattle.std.specs.List.{list_all};
ghost use Rattle.clap.specs.Words.{found_of, rows_of};
ghost use Rattle.ds_cmd.specs.Number.{is_numeral as is_numeral_text, jobs_of, number_in_range};
ghost use Rattle.ds_cmd.specs.Number.{slack_of};
ghost use Rattle.ds_cmd.specs.Number.{stop_in};

use crate::argument::text;
use clap::ArgMatches;

/// The number that a word of one to twenty decimal digits writes, where it is one from `least` to
/// `most`; `None` for another word.
pub fn number(word: &str, least: u64, most: u64) -> Option<u64>
    ensures { result ≡ number_in_range least most word.now }
{
    if !is_numeral(word) {
        return None;
    }
    match word.parse::<u64>() {
        Ok(value) if value >= least && value <= most => Some(value),
        _ => None,
    }
}

/// The same for a range of smaller numbers.
pub fn small_number(word: &str, least: u32, most: u32) -> Option<u32>
    ensures { result ≡ number_in_range least most word.now }
{
    match number(word, u64::from(least), u64::from(most)) {
        Some(value) => Some(value as u32),
        None => None,
    }
}

/// The same for a range of numbers of a byte.
pub fn byte_number(word: &str, least: u8, most: u8) -> Option<u8>
    ensures { result ≡ number_in_range least most word.now }
{
    match number(word, u64::from(least), u64::from(most)) {
        Some(value) => Some(value as u8),
        None => None,
    }
}

/// How many threads are wanted: as the option `--jobs` says, 1 to 64, and without it 1. `None`
/// where its value is no such number.
pub fn jobs(values: &ArgMatches<'_>) -> Option<u32>
    ensures { result ≡ jobs_of (rows_of (found_of values.now)) }
{
    match text(values, "jobs") {
        Some(word) => small_number(word, 1, 64),
        None => Some(1),
    }
}

/// How many openings a producer may run ahead: as the option `--slack` says, 0 to 15, and without
/// it 0. `None` where its value is no such number.
pub fn slack(values: &ArgMatches<'_>) -> Option<u8>
    ensures { result ≡ slack_of (rows_of (found_of values.now)) }
{
    match text(values, "slack") {
        Some(word) => byte_number(word, 0, 15),
        None => Some(0),
    }
}

/// How many events each worker fires at most: as the option `--stop` says, any number of 64 bits,
/// and without it there is no such bound. `None` where its value is no such number.
pub fn stop(values: &ArgMatches<'_>) -> Option<Option<u64>>
    ensures { result ≡ stop_in (rows_of (found_of values.now)) }
{
    let Some(word) = text(values, "stop") else {
        return Some(None);
    };
    match number(word, 0, u64::MAX) {
        Some(value) => Some(Some(value)),
        None => None,
    }
}

// One to twenty decimal digits stand in the word.
fn is_numeral(word: &str) -> bool
    ensures { result ≡ is_numeral_text word.now }
{
    let bytes = word.as_bytes();
    !bytes.is_empty() && bytes.len() <= 20 && are_digits(bytes)
}

// Only decimal digits stand in the word.
fn are_digits(word: &[u8]) -> bool
    ensures { result ≡ list_all is_ascii_digit word.now }
{
    word.iter().all(|byte| byte.is_ascii_digit())
}
