//! The files of a job, read and given their meaning.
ghost use Rattle.std.specs.Prelude.{◌≡◌, ◌≤◌, ℕ, List, IfOk, IfErr, MatchResult, length};
ghost use Rattle.ds_outside.specs.Held.{FrontIsHeld};
ghost use Rattle.ds_blif.specs.Text.{models_of_text};
ghost use Rattle.ds_flat.specs.Copies.{flat_of};
ghost use Rattle.ds_design.specs.Circuit.{columns};
ghost use Rattle.ds_netlist.specs.Fault.{IsNetFault};
ghost use Rattle.ds_netlist.specs.Named.{IsNamed};
ghost use Rattle.ds_stage.specs.FaultText.{blif_text as blif_text_of, flat_text as flat_text_of};
ghost use Rattle.ds_stage.specs.FaultText.{file_line as file_line_of};
ghost use Rattle.ds_stage.specs.FaultText.{numbered_line as numbered_line_of, too_many_text};
ghost use Rattle.ds_stage.specs.Ends.{Answers, Never, RoseIn, SaysRefused, SaysUnread, Stops};
ghost use Rattle.ds_stage.specs.Ends.{UnlessUnread};
ghost use Rattle.ds_stage.specs.Stage.{then_stage};
ghost use Rattle.ds_stage.specs.Stages.{accepted_stage, design_stage, lines_stage, netlist_stage};
ghost use Rattle.ds_stage.specs.Stages.{read_or_line, result_stage, rows_stage, text_stage};
ghost use Rattle.ds_stage.specs.Stages.{vectors_stage};

use crate::stop::Stop;
use crate::{
    blif_text, file_line, flat_text, net_fault_text, numbered_line, too_many, unread_line,
    vector_text,
};
use ds_base::{Limit, OutOfMemory, Refusal, Seq};
use ds_blif::read;
use ds_design::{Blif, Design, Netlist, Vectors};
use ds_flat::flatten;
use ds_lines::{At, Lines, LinesFault, lines};
use ds_netlist::{NetFault, levelise};
use ds_outside::{Files, ReadFault, Which, read_whole};
use ds_rows::read_vectors;
use std::alloc::Global;

// One byte more than a text may have, so that a text that is too long shows.
const ENOUGH: usize = 16_777_217;

/// The netlist of a file, or what refuses it.
pub fn read_netlist<F: Files>(alloc: Global, files: &mut F, name: &str) -> Result<Netlist, Stop>
    ensures value { Answers (netlist_stage (F.held files.old) name.now)
        (RoseIn (F.faults files.old) (F.faults files.new)) result }

    ensures same_held { F.held files.new ≡ F.held files.old }
    ensures same_reads { UnlessUnread result (F.faults files.new ≡ F.faults files.old) }
    ensures never_falls { (w : _) (n : List ℕ) → F.faults files.old w n ≤ F.faults files.new w n }
{
    let text = read_text(alloc, files, Which::Net, name)?;
    let design = design_in(alloc, name, &text)?;
    accepted_netlist(alloc, name, design)
}

/// The vectors of a file, one value for each of so many columns, or what refuses them.
pub fn read_rows<F: Files>(
    alloc: Global,
    files: &mut F,
    name: &str,
    netlist: &Netlist,
) -> Result<Vectors, Stop>
    ensures value { Answers (vectors_stage (F.held files.old) name.now netlist.now)
        (RoseIn (F.faults files.old) (F.faults files.new)) result }
    ensures width { IfOk result (λ vectors. vectors.width ≡ length (columns netlist.now)) }

    ensures same_held { F.held files.new ≡ F.held files.old }
    ensures same_reads { UnlessUnread result (F.faults files.new ≡ F.faults files.old) }
    ensures never_falls { (w : _) (n : List ℕ) → F.faults files.old w n ≤ F.faults files.new w n }
{
    let text = read_text(alloc, files, Which::Vectors, name)?;
    rows_in(alloc, name, &text, netlist.columns().len())
}

/// The first bytes of a file, all of them where it is not too long.
pub fn read_text<F: Files>(
    alloc: Global,
    files: &mut F,
    which: Which,
    name: &str,
) -> Result<Vec<u8>, Stop>
    ensures ok { IfOk result (λ text. FrontIsHeld (F.held files.old name.now) 16777217 text.items) }
    ensures stop { IfErr result (λ stop. Stops (lines_stage (F.held files.old) which name.now)
        (RoseIn (F.faults files.old) (F.faults files.new)) stop) }

    ensures same_held { F.held files.new ≡ F.held files.old }
    ensures same_reads { UnlessUnread result (F.faults files.new ≡ F.faults files.old) }
    ensures never_falls { (w : _) (n : List ℕ) → F.faults files.old w n ≤ F.faults files.new w n }
{
    match read_whole(alloc, files, which, name, ENOUGH) {
        Ok(text) => Ok(text),
        Err(ReadFault::Failed) => Err(unread(alloc, name)),
        Err(ReadFault::Memory) => Err(Stop::Memory),
    }
}

/// The stop of a file that was not read.
pub fn unread(alloc: Global, name: &str) -> Stop
    ensures { SaysUnread name.now result }
{
    match unread_line(alloc, name.as_bytes()) {
        Ok(line) => Stop::Unread(Seq::of(line)),
        Err(_) => Stop::Memory,
    }
}

/// The stop of a fault of a file, with the fault's text.
pub fn refused(alloc: Global, name: &str, text: &[u8]) -> Stop
    ensures { SaysRefused (file_line_of name.now text.now) result }
{
    match file_line(alloc, name.as_bytes(), text) {
        Ok(line) => Stop::Refused(Seq::of(line)),
        Err(_) => Stop::Memory,
    }
}

/// The stop of a limit that a file passes.
pub fn passed_limit(alloc: Global, name: &str, limit: Limit) -> Stop
    ensures { SaysRefused (file_line_of name.now (too_many_text limit)) result }
{
    match too_many(alloc, limit) {
        Ok(text) => refused(alloc, name, &text),
        Err(_) => Stop::Memory,
    }
}

/// The stop of a fault of a line, with the fault's text, where there was memory for it.
pub fn refused_at<E: Drop>(alloc: Global, name: &str, number: u64, text: Result<Vec<u8>, E>) -> Stop
    ensures { MatchResult text (λ t. SaysRefused (numbered_line_of name.now number t.items) result)
        (λ _. result ≡ Stop.Memory) }
{
    let Ok(text) = text else {
        return Stop::Memory;
    };
    match numbered_line(alloc, name.as_bytes(), number, &text) {
        Ok(line) => Stop::Refused(Seq::of(line)),
        Err(_) => Stop::Memory,
    }
}

/// The lines of a text, unless it is too long.
pub fn lines_in<'a>(alloc: Global, name: &str, text: &'a [u8]) -> Result<Lines<'a>, Stop>
    ensures { Answers (text_stage name.now text.now) Never result }
{
    match lines(alloc, text) {
        Ok(lines) => Ok(lines),
        Err(LinesFault::TooLong) => Err(refused(alloc, name, b"too long (limit 16777216)")),
        Err(LinesFault::Memory) => Err(Stop::Memory),
    }
}

// The flat design of a text.
fn design_in(alloc: Global, name: &str, text: &[u8]) -> Result<Design, Stop>
    ensures { Answers (then_stage (text_stage name.now text.now) (design_stage name.now))
        Never result }
{
    let lines = lines_in(alloc, name, text)?;
    let blif = models_in(alloc, name, &lines)?;
    flat_in(alloc, name, &blif)
}

// The models of the lines of a netlist.
fn models_in<'l>(alloc: Global, name: &str, lines: &'l Lines<'_>) -> Result<Blif<'l>, Stop>
    ensures { Answers (result_stage (read_or_line name.now blif_text_of
        (models_of_text lines.entry.now)))
        Never result }
{
    match read(alloc, lines) {
        Ok(blif) => Ok(blif),
        Err(Refusal::Fault(At { line, kind })) => {
            Err(refused_at(alloc, name, line, blif_text(alloc, &kind)))
        }
        Err(Refusal::Memory) => Err(Stop::Memory),
    }
}

// The flat design of models.
fn flat_in(alloc: Global, name: &str, blif: &Blif<'_>) -> Result<Design, Stop>
    ensures { Answers (result_stage (read_or_line name.now flat_text_of (flat_of blif.now)))
        Never result }
{
    match flatten(alloc, blif) {
        Ok(design) => Ok(design),
        Err(Refusal::Fault(At { line, kind })) => {
            Err(refused_at(alloc, name, line, flat_text(alloc, &kind)))
        }
        Err(Refusal::Memory) => Err(Stop::Memory),
    }
}

// The netlist of a design that is accepted.
fn accepted_netlist(alloc: Global, name: &str, design: Design) -> Result<Netlist, Stop>
    ensures { Answers (accepted_stage name.now design) Never result }
{
    match levelise(alloc, design) {
        Ok(netlist) => Ok(netlist),
        Err((design, fault)) => Err(not_accepted(alloc, name, &design, &fault)),
    }
}

// The stop of a design that is not accepted.
fn not_accepted(alloc: Global, name: &str, design: &Design, fault: &NetFault) -> Stop
    requires named { IsNamed design.now fault.now }
    requires fault { IsNetFault design.now fault.now }
    ensures { Stops (accepted_stage name.now design.now) Never result }
{
    match net_fault_text(alloc, design, fault) {
        Ok(text) => refused(alloc, name, &text),
        Err(_) => Stop::Memory,
    }
}

// The vectors of a text.
fn rows_in(alloc: Global, name: &str, text: &[u8], width: usize) -> Result<Vectors, Stop>
    ensures value { Answers (then_stage (text_stage name.now text.now)
        (rows_stage name.now width)) Never result }
    ensures width { IfOk result (λ vectors. vectors.width ≡ width) }
{
    let lines = lines_in(alloc, name, text)?;
    match read_vectors(alloc, &lines, width) {
        Ok(vectors) => Ok(vectors),
        Err(Refusal::Fault(At { line, kind })) => {
            Err(refused_at(alloc, name, line, vector_text(alloc, kind)))
        }
        Err(Refusal::Memory) => Err(Stop::Memory),
    }
}
