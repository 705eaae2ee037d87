//! The log of a job, read and fired.
ghost use Rattle.std.specs.Prelude.{◌≡◌, ◌≤◌, ℕ, List, length};
ghost use Rattle.ds_design.specs.Circuit.{columns};
ghost use Rattle.ds_stage.specs.Ends.{Answers, Never, RoseIn, UnlessUnread};
ghost use Rattle.ds_stage.specs.Stage.{then_stage};
ghost use Rattle.ds_stage.specs.Stages.{text_stage};
ghost use Rattle.ds_stage.specs.ReplayStage.{fired_stage, kept_after, kept_stage};

use crate::log_text::log_text;
use crate::source::{lines_in, read_text, refused_at};
use crate::stop::Stop;
use ds_base::Refusal;
use ds_design::Vectors;
use ds_fire::State;
use ds_latch::Plan;
use ds_lines::At;
use ds_outside::{Files, Which};
use ds_replay::{firings, replay};
use std::alloc::Global;

/// The state after the firings of a file's log, and how many they are, or what refuses it.
pub fn read_log<'a, F: Files>(
    alloc: Global,
    files: &mut F,
    name: &str,
    plan: &'a Plan<'a>,
    vectors: &'a Vectors,
) -> Result<(State<'a>, u64), Stop>
    requires { vectors.now.width ≡ length (columns plan.now.split.circuit) }
    ensures value { Answers (kept_stage (F.held files.old) name.now plan.now vectors.now.rows)
        (RoseIn (F.faults files.old) (F.faults files.new)) result }

    ensures same_held { F.held files.new ≡ F.held files.old }
    ensures same_reads { UnlessUnread result (F.faults files.new ≡ F.faults files.old) }
    ensures never_falls { (w : _) (n : List ℕ) → F.faults files.old w n ≤ F.faults files.new w n }
{
    let text = read_text(alloc, files, Which::Log, name)?;
    fired_in(alloc, name, &text, plan, vectors)
}

// The state after the firings of a text, and how many they are.
fn fired_in<'a>(
    alloc: Global,
    name: &str,
    text: &[u8],
    plan: &'a Plan<'a>,
    vectors: &'a Vectors,
) -> Result<(State<'a>, u64), Stop>
    requires { vectors.now.width ≡ length (columns plan.now.split.circuit) }
    ensures { Answers (then_stage (then_stage (text_stage name.now text.now)
        (fired_stage name.now plan.now vectors.now.rows))
        (kept_after plan.now vectors.now.rows)) Never result }
{
    let lines = lines_in(alloc, name, text)?;
    match replay(alloc, plan, vectors, &lines) {
        Ok(state) => Ok((state, firings(&lines) as u64)),
        Err(Refusal::Fault(At { line, kind })) => {
            let text = log_text(alloc, plan.graph(), &kind);
            Err(refused_at(alloc, name, line, text))
        }
        Err(Refusal::Memory) => Err(Stop::Memory),
    }
}
