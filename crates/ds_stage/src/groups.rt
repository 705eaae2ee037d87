//! The groups of a job's registers.
ghost use Rattle.std.specs.Prelude.{◌≡◌, ◌++◌, ◌≤◌, ℕ, List, [], IfOk, codes, length};
ghost use Rattle.ds_design.specs.Groups.{AreDisjoint};
ghost use Rattle.ds_groups.specs.Names.{register_names};
ghost use Rattle.ds_groups.specs.Read.{groups_of};
ghost use Rattle.ds_stage.specs.Ends.{Answers, Never, RoseIn, UnlessUnread};
ghost use Rattle.ds_stage.specs.Stage.{then_stage};
ghost use Rattle.ds_stage.specs.Stages.{read_or_line, result_stage, text_stage};
ghost use Rattle.ds_stage.specs.GroupsStage.{group_text as group_text_of};
ghost use Rattle.ds_stage.specs.GroupsStage.{grouped_stage, groups_stage, named_groups_stage};

use crate::source::{lines_in, read_text, refused_at};
use crate::stop::Stop;
use ds_base::{Name, Refusal, Seq};
use ds_cmd::FileName;
use ds_design::{Design, Netlist};
use ds_groups::{GroupKind, Groups, read_groups};
use ds_lines::{At, Lines};
use ds_outside::{Files, Which};
use std::alloc::{AllocError, Global};

/// The groups of the file that is named, or what refuses them; none where no file is named.
pub fn wanted_groups<F: Files>(
    alloc: Global,
    files: &mut F,
    file: &Option<FileName>,
    netlist: &Netlist,
) -> Result<Groups, Stop>
    ensures value { Answers (groups_stage (F.held files.old) file.now netlist.now)
        (RoseIn (F.faults files.old) (F.faults files.new)) result }
    ensures disjoint { IfOk result (AreDisjoint (length netlist.now.registers)) }

    ensures same_held { F.held files.new ≡ F.held files.old }
    ensures same_reads { UnlessUnread result (F.faults files.new ≡ F.faults files.old) }
    ensures never_falls { (w : _) (n : List ℕ) → F.faults files.old w n ≤ F.faults files.new w n }
{
    match file {
        Some(file) => named_groups(alloc, files, file.as_str(), netlist),
        None => Ok(no_groups(alloc)),
    }
}

/// No groups.
pub fn no_groups(alloc: Global) -> Groups
    ensures value { result ≡ [] }
    ensures disjoint { (count : ℕ) → AreDisjoint count result }
{
    Groups::of(Seq::new(alloc))
}

// The groups of a file.
fn named_groups<F: Files>(
    alloc: Global,
    files: &mut F,
    name: &str,
    netlist: &Netlist,
) -> Result<Groups, Stop>
    ensures value { Answers (named_groups_stage (F.held files.old) name.now netlist.now)
        (RoseIn (F.faults files.old) (F.faults files.new)) result }
    ensures disjoint { IfOk result (AreDisjoint (length netlist.now.registers)) }

    ensures same_held { F.held files.new ≡ F.held files.old }
    ensures same_reads { UnlessUnread result (F.faults files.new ≡ F.faults files.old) }
    ensures never_falls { (w : _) (n : List ℕ) → F.faults files.old w n ≤ F.faults files.new w n }
{
    let text = read_text(alloc, files, Which::Groups, name)?;
    groups_in(alloc, name, &text, netlist)
}

// The groups of a text.
fn groups_in(alloc: Global, name: &str, text: &[u8], netlist: &Netlist) -> Result<Groups, Stop>
    ensures value { Answers (then_stage (text_stage name.now text.now)
        (grouped_stage name.now netlist.now)) Never result }
    ensures disjoint { IfOk result (AreDisjoint (length netlist.now.registers)) }
{
    let lines = lines_in(alloc, name, text)?;
    grouped(alloc, name, &lines, netlist.design())
}

// The groups of lines.
fn grouped(alloc: Global, name: &str, lines: &Lines<'_>, design: &Design) -> Result<Groups, Stop>
    ensures value { Answers (result_stage (read_or_line name.now group_text_of
        (groups_of (register_names design.now) lines.now)))
        Never result }
    ensures disjoint { IfOk result (AreDisjoint (length design.now.registers)) }
{
    match read_groups(alloc, design, lines) {
        Ok(groups) => Ok(groups),
        Err(Refusal::Fault(At { line, kind })) => {
            Err(refused_at(alloc, name, line, group_text(alloc, &kind)))
        }
        Err(Refusal::Memory) => Err(Stop::Memory),
    }
}

// The text of a fault of a line of groups.
fn group_text(alloc: Global, kind: &GroupKind) -> Result<Vec<u8>, AllocError>
    ensures { IfOk result (λ text. text.items ≡ group_text_of kind.now) }
{
    match kind {
        GroupKind::UnknownRegister(word) => with_word(alloc, b"unknown register ", word),
        GroupKind::RepeatedRegister(word) => with_word(alloc, b"repeated register ", word),
    }
}

// A text with a word behind it.
fn with_word(alloc: Global, text: &[u8], word: &Name) -> Result<Vec<u8>, AllocError>
    ensures { IfOk result (λ all. all.items ≡ text.now ++ word.now) }
{
    let mut all = Vec::from_slice(alloc, text)?;
    all.extend_from_slice(word.as_slice())?;
    Ok(all)
}
