//! The marking: entries between braces.
ghost use Rattle.std.specs.Prelude.{◌≡◌, Ok, IfErr, IfOk, OnOk, drop, option_map};
ghost use Rattle.ds_base.specs.Refusal.{RefusesAs};
ghost use Rattle.ds_lines.specs.Words.{texts};
ghost use Rattle.ds_astg.specs.Marking.{closed as closed_in, entries_of as entries_in};
ghost use Rattle.ds_astg.specs.Marking.{is_unmarked as is_unmarked_in};
ghost use Rattle.ds_astg.specs.Marking.{mark as mark_in, mark_all as mark_all_in};
ghost use Rattle.ds_astg.specs.Marking.{mark_key as mark_key_in};
ghost use Rattle.ds_astg.specs.Keys.{key_of};
ghost use Rattle.ds_astg.specs.Steps.{IsGraphRefusal};
ghost use Rattle.ds_astg.specs.declared.fault.AstgKind.TheVariants.{BadMarking};

use crate::entry_key::key_in;
use crate::fault::AstgKind;
use crate::key::Key;
use crate::places::Places;
use crate::signals::Signals;
use crate::tokens::tokens_of;
use crate::word::{before, first_byte, last_byte, rest, without_last};
use ds_base::Refusal;
use ds_lines::{name, word};
use std::alloc::{AllocError, Global};

/// The places get the tokens of these entries.
pub fn mark_all<'a>(
    alloc: Global,
    signals: &Signals<'a>,
    places: &mut Places<'a>,
    entries: &[&'a [u8]],
) -> Result<(), Refusal<AstgKind>>
    ensures ok { OnOk result
        (mark_all_in signals.now (texts entries.now) places.old ≡ Ok places.new) }
    ensures fault { IfErr result
        (λ e. RefusesAs e (mark_all_in signals.now (texts entries.now) places.old)) }
{
    for i in 0..entries.len() {
        mark(alloc, signals, places, word(entries, i))?;
    }
    Ok(())
}

// A place gets the tokens of an entry.
fn mark<'a>(
    alloc: Global,
    signals: &Signals<'a>,
    places: &mut Places<'a>,
    entry: &'a [u8],
) -> Result<(), Refusal<AstgKind>>
    ensures ok { OnOk result (mark_in signals.now entry.now places.old ≡ Ok places.new) }
    ensures fault { IfErr result (λ e. RefusesAs e (mark_in signals.now entry.now places.old)) }
{
    if entry.len() == 0 {
        return Ok(());
    }
    match key_in(signals, before(entry, b'=')) {
        None => bad_marking(alloc, entry),
        Some(key) => match tokens_of(entry) {
            None => bad_marking(alloc, entry),
            Some(tokens) => mark_key(alloc, places, entry, key, tokens),
        },
    }
}

// A place gets tokens, where it stands before and has none.
fn mark_key<'a>(
    alloc: Global,
    places: &mut Places<'a>,
    entry: &[u8],
    key: Key<'a>,
    tokens: u8,
) -> Result<(), Refusal<AstgKind>>
    ensures ok { OnOk result
        (mark_key_in entry.now (key_of key.entry) tokens places.old ≡ Ok places.new) }
    ensures fault { IfErr result
        (λ e. RefusesAs e (mark_key_in entry.now (key_of key.entry) tokens places.old)) }
{
    if !is_unmarked(places, key) {
        return bad_marking(alloc, entry);
    }
    let number = places.number(key);
    let place = places.place(number);
    places.set(number, place.with_tokens(tokens));
    Ok(())
}

// Whether a place stands before and has no tokens.
fn is_unmarked<'a>(places: &Places<'a>, key: Key<'a>) -> bool
    ensures { result ≡ is_unmarked_in places.now (key_of key.entry) }
{
    places.has(key) && places.place(places.number(key)).tokens.is_none()
}

/// An entry that is none.
pub fn bad_marking(alloc: Global, word: &[u8]) -> Result<(), Refusal<AstgKind>>
    ensures { IsGraphRefusal (BadMarking word.now) result }
{
    Err(Refusal::Fault(AstgKind::BadMarking(name(alloc, word)?)))
}

/// The entries between braces, where these are there.
pub fn entries_of<'a>(
    alloc: Global,
    words: &[&'a [u8]],
) -> Result<Option<Vec<&'a [u8]>>, AllocError>
    ensures { IfOk result
        (λ e. option_map (λ v. texts v.items) e ≡ entries_in (texts words.now)) }
{
    if words.len() == 0 {
        return Ok(None);
    }
    let first = word(words, 0);
    if first_byte(first) != b'{' {
        return Ok(None);
    }
    let mut entries = words.to_vec(alloc)?;
    entries[0] = rest(first);
    Ok(closed(entries))
}

// Words without the brace at the end, where there is one.
fn closed<'a>(words: Vec<&'a [u8]>) -> Option<Vec<&'a [u8]>>
    ensures { option_map (λ v. texts v.items) result ≡ closed_in (texts words.entry.items) }
{
    let mut words = words;
    let count = words.len();
    if count == 0 {
        return None;
    }
    let last = word(&words, count - 1);
    if last_byte(last) != b'}' {
        return None;
    }
    words[count - 1] = without_last(last);
    Some(words)
}
