//! The lines that name faults.
ghost use Rattle.std.specs.Prelude.{◌≡◌, ◌++◌, IfOk, codes, decimal};
ghost use Rattle.ds_base.specs.Limit.{most_of};
ghost use Rattle.ds_stage.specs.FaultText.{file_line as file_line_of, limit_text};
ghost use Rattle.ds_stage.specs.FaultText.{numbered_line as numbered_line_of, too_many_text};
ghost use Rattle.ds_stage.specs.FaultText.{unread_line as unread_line_of};

use ds_base::Limit;
use itoa::Buffer;
use std::alloc::{AllocError, Global};

/// The line of a fault of a file.
pub fn file_line(alloc: Global, file: &[u8], text: &[u8]) -> Result<Vec<u8>, AllocError>
    ensures { IfOk result (λ line. line.items ≡ file_line_of file.now text.now) }
{
    let mut line = Vec::from_slice(alloc, file)?;
    line.extend_from_slice(b": ")?;
    line.extend_from_slice(text)?;
    line.extend_from_slice(b"\n")?;
    Ok(line)
}

/// The line of a fault of a line of a file.
pub fn numbered_line(
    alloc: Global,
    file: &[u8],
    number: u64,
    text: &[u8],
) -> Result<Vec<u8>, AllocError>
    ensures { IfOk result (λ line. line.items ≡ numbered_line_of file.now number text.now) }
{
    let mut buffer = Buffer::new();
    let mut line = Vec::from_slice(alloc, file)?;
    line.extend_from_slice(b":")?;
    line.extend_from_slice(buffer.format(number).as_bytes())?;
    line.extend_from_slice(b": ")?;
    line.extend_from_slice(text)?;
    line.extend_from_slice(b"\n")?;
    Ok(line)
}

/// The line of a file that was not read.
pub fn unread_line(alloc: Global, file: &[u8]) -> Result<Vec<u8>, AllocError>
    ensures { IfOk result (λ line. line.items ≡ unread_line_of file.now) }
{
    let mut line = Vec::from_slice(alloc, b"desync: cannot read ")?;
    line.extend_from_slice(file)?;
    line.extend_from_slice(b"\n")?;
    Ok(line)
}

/// The text of a limit that is passed.
pub fn too_many(alloc: Global, limit: Limit) -> Result<Vec<u8>, AllocError>
    ensures { IfOk result (λ text. text.items ≡ too_many_text limit) }
{
    let mut buffer = Buffer::new();
    let mut text = Vec::from_slice(alloc, b"too many ")?;
    text.extend_from_slice(limit_word(limit))?;
    text.extend_from_slice(b" (limit ")?;
    text.extend_from_slice(buffer.format(limit.most()).as_bytes())?;
    text.extend_from_slice(b")")?;
    Ok(text)
}

// What a limit is on.
fn limit_word(limit: Limit) -> &'static [u8]
    ensures { result.now ≡ limit_text limit }
{
    match limit {
        Limit::Bytes => b"bytes",
        Limit::TableInputs => b"table inputs",
        Limit::Copies => b"copies",
        Limit::Nets => b"nets",
        Limit::Tables => b"tables",
        Limit::Registers => b"registers",
        Limit::Clusters => b"clusters",
        Limit::Arcs => b"arcs",
        Limit::Signals => b"signals",
        Limit::Vectors => b"vectors",
    }
}
