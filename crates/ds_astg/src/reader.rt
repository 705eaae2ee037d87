//! Reading a graph text.
ghost use Rattle.std.specs.Prelude.{◌≡◌, ◌<◌, length, Ok, IfErr, OnOk};
ghost use Rattle.ds_base.specs.Refusal.{IsMeant};
ghost use Rattle.ds_lines.specs.Line.{line_or_none};
ghost use Rattle.ds_astg.specs.Line.{step_line};
ghost use Rattle.ds_astg.specs.Read.{graph_of_lines as graph_in};
ghost use Rattle.ds_astg.specs.Steps.{IsLineFault};

use crate::fault::AstgRefusal;
use crate::graph::graph_of;
use crate::head::{Head, ends, head_of};
use crate::state::State;
use ds_lines::{Lines, on_line, word};
use ds_marked::Marked;
use std::alloc::Global;

/// The graph for which the lines stand, or their first fault: the first faulty line, its words from
/// left to right. Without a faulty line it is the first place that lacks a source or a target.
pub fn read<'a>(alloc: Global, lines: &Lines<'a>) -> Result<Marked, AstgRefusal>
    ensures { IsMeant result (graph_in lines.now) }
{
    let mut state: State<'a> = State::new(alloc);
    for i in 0..lines.count() {
        let head = head_of(word(lines.line(i), 0));
        if ends(head) {
            return graph_of(alloc, &state);
        }
        read_line(alloc, &mut state, lines, i, head)?;
    }
    graph_of(alloc, &state)
}

// Reads a line of a kind.
fn read_line<'a>(
    alloc: Global,
    state: &mut State<'a>,
    lines: &Lines<'a>,
    i: usize,
    head: Head,
) -> Result<(), AstgRefusal>
    requires { i < length lines.now }
    ensures ok { OnOk result
        (step_line head (line_or_none lines.now i) state.old ≡ Ok state.new) }
    ensures fault { IfErr result
        (IsLineFault (line_or_none lines.now i).number
        (step_line head (line_or_none lines.now i) state.old)) }
{
    let line = lines.number(i);
    match state.step(alloc, head, line, lines.line(i)) {
        Ok(()) => Ok(()),
        Err(why) => Err(on_line(line, why)),
    }
}
