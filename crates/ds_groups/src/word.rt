//! What one word takes.
ghost use Rattle.std.specs.Prelude.{◌≡◌, ◌<◌, ◌||◌, length, map, IfOk};
ghost use Rattle.std.specs.Str.{bytes_eq};
ghost use Rattle.ds_rows.specs.Nets.{net_text};
ghost use Rattle.ds_groups.specs.Keys.{net_of_key};
ghost use Rattle.ds_groups.specs.Latest.{drives, driven_net};
ghost use Rattle.ds_groups.specs.Match.{has_form};
ghost use Rattle.ds_groups.specs.Read.{after_word, is_free, register_name};
ghost use Rattle.ds_groups.specs.Step.{IsHeld, IsWordTold};
ghost use Rattle.ds_groups.specs.Taking.{some_of, TakesAll, TakesFree};

use crate::copy::copied_in;
use crate::fault::GroupKind;
use crate::holders::Holders;
use crate::key::Key;
use crate::named::Named;
use crate::pattern::Pattern;
use crate::taking::Taking;
use ds_base::Refusal;
use ds_lines::name;
use std::alloc::{AllocError, Global};

/// Gives a line, counted from 1, the registers that a word takes.
pub(crate) fn take_word(
    alloc: Global,
    named: &Named<'_>,
    line: usize,
    word: &[u8],
    holders: &mut Holders,
) -> Result<(), Refusal<GroupKind>>
    requires line { 0 < line }
    requires one_each { length holders.old ≡ length named.now }
    ensures { IsHeld (after_word (map net_text named.now) line holders.old word.now)
        holders.new result }
{
    let by_name = take_name(named, line, word, holders);
    if by_name.known {
        return told(alloc, word, by_name);
    }
    let matching = take_pattern(alloc, named, line, word, holders)?;
    told(alloc, word, matching)
}

// The answer for a word, by whether some register is meant, and one was taken.
fn told(alloc: Global, word: &[u8], taking: Taking) -> Result<(), Refusal<GroupKind>>
    ensures { IsWordTold word.now taking result }
{
    if taking.took {
        return Ok(());
    }
    let word = name(alloc, word)?;
    if taking.known {
        Err(Refusal::Fault(GroupKind::RepeatedRegister(word)))
    } else {
        Err(Refusal::Fault(GroupKind::UnknownRegister(word)))
    }
}

// Takes the registers of this name.
fn take_name(named: &Named<'_>, line: usize, word: &[u8], holders: &mut Holders) -> Taking
    requires line { 0 < line }
    requires one_each { length holders.old ≡ length named.now }
    ensures { TakesAll (λ r. bytes_eq word.now (register_name (map net_text named.now) r))
        line holders.old holders.new result }
{
    // for the fact that the copies have numbers of 32 bits
    let _count = named.count();
    let own = take_key(
        named,
        line,
        &Key {
            copy: 0,
            name: word,
        },
        holders,
    );
    match copied_in(word) {
        None => own,
        Some(copied) => {
            let key = Key {
                copy: copied.copy,
                name: copied.name,
            };
            let other = take_key(named, line, &key, holders);
            either(own, other)
        }
    }
}

// What two takings tell together.
fn either(one: Taking, other: Taking) -> Taking
    ensures known { result.known ≡ one.known || other.known }
    ensures took { result.took ≡ one.took || other.took }
{
    Taking {
        known: one.known || other.known,
        took: one.took || other.took,
    }
}

// Takes the registers that drive the net of a key.
fn take_key(named: &Named<'_>, line: usize, key: &Key<'_>, holders: &mut Holders) -> Taking
    requires line { 0 < line }
    requires one_each { length holders.old ≡ length named.now }
    ensures { TakesAll (drives named.now (net_of_key key.now)) line holders.old holders.new result }
{
    let mut next = named.latest(key);
    let known = next.is_some();
    let mut took = false;
    'taking: while let Some(register) = next {
        took = holders.take(register.index(), line) || took;
        next = named.earlier(register);
    }
    Taking { known, took }
}

// Takes the registers whose names match a word.
fn take_pattern(
    alloc: Global,
    named: &Named<'_>,
    line: usize,
    word: &[u8],
    holders: &mut Holders,
) -> Result<Taking, AllocError>
    requires line { 0 < line }
    requires one_each { length holders.old ≡ length named.now }
    ensures { IfOk result (TakesAll (λ r. has_form word.now (net_text (driven_net named.now r)))
        line holders.old holders.new) }
{
    let pattern = Pattern::of(alloc, word)?;
    let took = take_matching(named, line, &pattern, holders);
    let known = took || is_known(named, &pattern);
    Ok(Taking { known, took })
}

// Takes the registers that no word has taken and whose names match. Whether there is one.
fn take_matching(
    named: &Named<'_>,
    line: usize,
    pattern: &Pattern<'_>,
    holders: &mut Holders,
) -> bool
    requires line { 0 < line }
    requires one_each { length holders.old ≡ length named.now }
    ensures { TakesFree (λ r. has_form pattern.now (net_text (driven_net named.now r)))
        line holders.old holders.new result }
{
    let mut took = false;
    for i in 0..holders.count() {
        if holders.line(i) == 0 && pattern.matches(named.net(i)) {
            holders.take(i, line);
            took = true;
        }
    }
    took
}

// Whether the name of some register matches.
fn is_known(named: &Named<'_>, pattern: &Pattern<'_>) -> bool
    ensures { result ≡ some_of (length named.now)
        (λ r. has_form pattern.now (net_text (driven_net named.now r))) }
{
    for i in 0..named.count() {
        if pattern.matches(named.net(i)) {
            return true;
        }
    }
    false
}
