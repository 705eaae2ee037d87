//! What the commands are put together of: words, options and flags of `clap`, and how their values
//! are read back.
ghost use Rattle.std.specs.Prelude.{◌≡◌, false, option_map, IfOk};
ghost use Rattle.clap.specs.Words.{rule_of, found_of, rows_of, first_of};
ghost use Rattle.ds_cmd.specs.Argument.{flag_rule, flag_with as flag_beside};
ghost use Rattle.ds_cmd.specs.Argument.{is_set as is_set_in, option_rule, word_rule};

use crate::FileName;
use clap::{Arg, ArgAction, ArgMatches};
use ds_base::OutOfMemory;
use std::alloc::Global;

/// A word that is required, in its place behind the command's name.
pub fn word<'a>(alloc: Global, id: &'a str) -> Arg<'a>
    ensures rule { rule_of result ≡ word_rule id.entry.now }
    ensures local { result.global ≡ false }
{
    Arg::new(alloc, id).required(true)
}

/// An option with a value: `--id VALUE`, or `--id=VALUE`.
pub fn option<'a>(alloc: Global, id: &'a str) -> Arg<'a>
    ensures rule { rule_of result ≡ option_rule id.entry.now }
    ensures local { result.global ≡ false }
{
    Arg::new(alloc, id).long(id)
}

/// An option without a value: `--id`.
pub fn flag<'a>(alloc: Global, id: &'a str) -> Arg<'a>
    ensures rule { rule_of result ≡ flag_rule id.entry.now }
    ensures local { result.global ≡ false }
{
    Arg::new(alloc, id).long(id).action(ArgAction::SetTrue)
}

/// The value of an argument, where it has one.
pub fn text<'a>(values: &ArgMatches<'a>, id: &str) -> Option<&'a str>
    ensures { option_map (λ s. s.now) result ≡ first_of id.now (rows_of (found_of values.now)) }
{
    values.get_str(id)
}

/// The name of a file that is the value of an option, where it has one.
pub fn named(
    alloc: Global,
    values: &ArgMatches<'_>,
    id: &str,
) -> Result<Option<FileName>, OutOfMemory>
    ensures { IfOk result (λ name. name ≡ first_of id.now (rows_of (found_of values.now))) }
{
    match text(values, id) {
        Some(word) => Ok(Some(FileName::new(alloc, word)?)),
        None => Ok(None),
    }
}

/// Whether an option without a value stands among the words.
pub fn is_set(values: &ArgMatches<'_>, id: &str) -> bool
    ensures { result ≡ is_set_in id.now (rows_of (found_of values.now)) }
{
    match text(values, id) {
        Some(word) => word == "true",
        None => false,
    }
}

/// Whether an option without a value stands among the words. `None` where it stands beside a slack
/// above 0.
#[tactic(auto, unfolding(crate::specs::Argument::flag_with))]
pub fn flag_with(values: &ArgMatches<'_>, id: &str, slack: u8) -> Option<bool>
    ensures { result ≡ flag_beside slack (is_set_in id.now (rows_of (found_of values.now))) }
{
    let wanted = is_set(values, id);
    if wanted && slack > 0 {
        None
    } else {
        Some(wanted)
    }
}
