//! Reading groups.
ghost use Rattle.std.specs.Prelude.{◌≡◌, ◌<◌, ◌≤◌, All, length, map, replicate, IfErr, IfOk, Ok};
ghost use Rattle.ds_base.specs.Refusal.{IsMeant, RefusesAs};
ghost use Rattle.ds_lines.specs.Words.{texts};
ghost use Rattle.ds_rows.specs.Nets.{net_text};
ghost use Rattle.ds_design.specs.Groups.{AreDisjoint};
ghost use Rattle.ds_groups.specs.Laws.{HaveWords};
ghost use Rattle.ds_groups.specs.Names.{register_names};
ghost use Rattle.ds_groups.specs.Read.{after_lines, after_words, groups_of, none_taken};
ghost use Rattle.ds_groups.specs.Step.{IsHeld};

use crate::Groups;
use crate::fault::{GroupKind, GroupRefusal};
use crate::holders::Holders;
use crate::members::members;
use crate::named::Named;
use crate::word::take_word;
use ds_base::Refusal;
use ds_design::Design;
use ds_lines::{Lines, on_line, word};
use std::alloc::Global;

/// The groups of a design's registers that lines stand for, one for each line. Refused with the
/// first faulty line and its first faulty word.
pub fn read_groups(
    alloc: Global,
    design: &Design,
    lines: &Lines<'_>,
) -> Result<Groups, GroupRefusal>
    ensures value { IsMeant result (groups_of (register_names design.now) lines.now) }
    ensures ok_disjoint { IfOk result (AreDisjoint (length design.now.registers)) }
{
    let named = Named::of(alloc, design)?;
    let mut holders = Holders::new(alloc, named.count())?;
    take_lines(alloc, &named, lines, &mut holders)?;
    let members = members(alloc, &holders, lines.count())?;
    Ok(Groups::of(members))
}

// Takes the lines in turn, until one is refused.
fn take_lines(
    alloc: Global,
    named: &Named<'_>,
    lines: &Lines<'_>,
    holders: &mut Holders,
) -> Result<(), GroupRefusal>
    requires one_each { holders.old ≡ replicate (length named.now) 0 }
    ensures value { IfOk result (λ _. after_lines (map net_text named.now) 1 holders.old lines.now
        ≡ Ok holders.new) }
    ensures fault { IfErr result (λ why. RefusesAs why
        (after_lines (map net_text named.now) 1 holders.old lines.now)) }
    ensures size { IfOk result (λ _. length holders.new ≡ length named.now) }
    ensures within { IfOk result (λ _. All (λ n. n ≤ length lines.now) holders.new) }
    ensures words { IfOk result (λ _. HaveWords lines.now) }
{
    for i in 0..lines.count() {
        match take_words(alloc, named, i + 1, lines.line(i), holders) {
            Ok(()) => {}
            Err(why) => return Err(on_line(lines.number(i), why)),
        }
    }
    Ok(())
}

// Takes the words of a line in turn, until one is refused.
fn take_words(
    alloc: Global,
    named: &Named<'_>,
    line: usize,
    words: &[&[u8]],
    holders: &mut Holders,
) -> Result<(), Refusal<GroupKind>>
    requires line { 0 < line }
    requires one_each { length holders.old ≡ length named.now }
    requires within { All (λ n. n ≤ line) holders.old }
    ensures value { IsHeld (after_words (map net_text named.now) line holders.old (texts words.now))
        holders.new result }
    ensures one_each { IfOk result (λ _. length holders.new ≡ length named.now) }
    ensures within { IfOk result (λ _. All (λ n. n ≤ line) holders.new) }
{
    for i in 0..words.len() {
        match take_word(alloc, named, line, word(words, i), holders) {
            Ok(()) => {}
            Err(why) => return Err(why),
        }
    }
    Ok(())
}
