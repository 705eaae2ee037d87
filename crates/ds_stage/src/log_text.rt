//! The texts of faults of a log.
ghost use Rattle.std.specs.Prelude.{◌≡◌, ◌++◌, [], IfOk, OnOk, slice_get};
ghost use Rattle.std.specs.Option.{option_map_or};
ghost use Rattle.ds_stage.specs.ReplayStage.{ends_text, log_text as log_text_of};

use crate::put_event;
use ds_base::ArcId;
use ds_marked::Marked;
use ds_replay::ReplayKind;
use std::alloc::{AllocError, Global};

/// The text of a fault of a line of a log.
pub fn log_text(alloc: Global, graph: &Marked, kind: &ReplayKind) -> Result<Vec<u8>, AllocError>
    ensures { IfOk result (λ text. text.items ≡ log_text_of graph.now kind.now) }
{
    match kind {
        ReplayKind::BadWord => Vec::from_slice(alloc, b"bad word"),
        ReplayKind::UnknownEvent(word) => {
            let mut text = Vec::from_slice(alloc, b"unknown event ")?;
            text.extend_from_slice(word.as_slice())?;
            Ok(text)
        }
        ReplayKind::WrongTurn => Vec::from_slice(alloc, b"wrong turn"),
        ReplayKind::OverLimit => Vec::from_slice(alloc, b"over limit"),
        ReplayKind::NotEnabled(arc) => {
            let mut text = Vec::from_slice(alloc, b"not enabled: ")?;
            put_ends(&mut text, graph, *arc)?;
            Ok(text)
        }
    }
}

// Puts the ends of an arc behind a text.
fn put_ends(text: &mut Vec<u8>, graph: &Marked, arc: ArcId) -> Result<(), AllocError>
    ensures { OnOk result (text.new.items ≡ text.old.items
        ++ option_map_or (ends_text graph.now) (slice_get graph.now.arcs arc) []) }
{
    let Some(arc) = graph.arcs().get(arc.index()) else {
        return Ok(());
    };
    put_event(text, graph, arc.source)?;
    text.extend_from_slice(b" to ")?;
    put_event(text, graph, arc.target)
}
