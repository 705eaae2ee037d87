//! Vectors read window by window.
ghost use Rattle.std.specs.Prelude.{◌≡◌, ◌≤◌, ℕ, List, IfOk, MatchResult};
ghost use Rattle.ds_stream.specs.Next.{FitsHeld, GivesHeld, IsBehind};
ghost use Rattle.ds_stage.specs.Ends.{RoseIn, UnlessUnread};
ghost use Rattle.ds_stage.specs.StreamStage.{most_vectors as most_vectors_of};
ghost use Rattle.ds_stage.specs.StreamStage.{stream_text as stream_text_of};
ghost use Rattle.ds_stage.specs.StreamStops.{StopsWindow};

use crate::source::{refused, refused_at, unread};
use crate::stop::Stop;
use ds_base::Limit;
use ds_design::Vectors;
use ds_lines::At;
use ds_outside::Files;
use ds_stream::{NextFault, StreamKind, VectorReader};
use itoa::Buffer;
use std::alloc::{AllocError, Global};

/// How many vectors a window has.
pub const WINDOW: usize = 4096;

/// How many vectors a stream may have: a log keeps all firings.
pub fn most_vectors(log: bool) -> u64
    ensures { result ≡ most_vectors_of log }
{
    if log {
        Limit::Vectors.most()
    } else {
        4_294_967_295
    }
}

/// The next `WINDOW` vectors of a file, fewer only where it has no more, or what refuses them.
pub fn read_window<F: Files>(
    alloc: Global,
    files: &mut F,
    name: &str,
    reader: VectorReader,
) -> Result<(VectorReader, Vectors), Stop>
    requires fits { FitsHeld (F.held files.old name.now) reader }

    ensures gives { MatchResult result
        (λ r. GivesHeld (F.held files.old name.now) reader 4096 r.0 r.1.rows)
        (λ stop. StopsWindow (F.held files.old name.now) reader name.now
        (RoseIn (F.faults files.old) (F.faults files.new)) stop) }
    ensures fits { IfOk result (λ r. FitsHeld (F.held files.new name.now) r.0) }
    ensures behind { IfOk result (λ r. IsBehind reader 4096 r.0 r.1.rows) }
    ensures width { IfOk result (λ r. r.1.width ≡ reader.width) }

    ensures same_held { F.held files.new ≡ F.held files.old }
    ensures same_reads { UnlessUnread result (F.faults files.new ≡ F.faults files.old) }
    ensures never_falls { (w : _) (n : List ℕ) → F.faults files.old w n ≤ F.faults files.new w n }
{
    match reader.next(alloc, files, name, WINDOW) {
        Ok(given) => Ok(given),
        Err(NextFault::Vector(At { line, kind })) => {
            Err(refused_at(alloc, name, line, stream_text(alloc, kind)))
        }
        Err(NextFault::TooLong) => Err(refused(alloc, name, b"too long (limit 281474976710656)")),
        Err(NextFault::Read) => Err(unread(alloc, name)),
        Err(NextFault::Memory) => Err(Stop::Memory),
    }
}

// The text of a fault of a line of vectors.
fn stream_text(alloc: Global, kind: StreamKind) -> Result<Vec<u8>, AllocError>
    ensures { IfOk result (λ text. text.items ≡ stream_text_of kind) }
{
    match kind {
        StreamKind::TooMany(most) => too_many_vectors(alloc, most),
        StreamKind::BadWidth => Vec::from_slice(alloc, b"bad width"),
        StreamKind::BadBit => Vec::from_slice(alloc, b"bad bit"),
    }
}

// The text of a limit on vectors that is passed.
fn too_many_vectors(alloc: Global, most: u64) -> Result<Vec<u8>, AllocError>
    ensures { IfOk result (λ text. text.items ≡ stream_text_of (StreamKind.TooMany most)) }
{
    let mut buffer = Buffer::new();
    let mut text = Vec::from_slice(alloc, b"too many vectors (limit ")?;
    text.extend_from_slice(buffer.format(most).as_bytes())?;
    text.extend_from_slice(b")")?;
    Ok(text)
}
