//! The texts of faults of lines.
ghost use Rattle.std.specs.Prelude.{◌≡◌, ◌++◌, IfOk};
ghost use Rattle.ds_stage.specs.FaultText.{blif_text as blif_text_of, flat_text as flat_text_of};
ghost use Rattle.ds_stage.specs.FaultText.{with_blanks, vector_text as vector_text_of};

use crate::fault_line::too_many;
use ds_base::Name;
use ds_blif::BlifKind;
use ds_flat::FlatKind;
use ds_rows::VectorKind;
use std::alloc::{AllocError, Global};

/// The text of a fault of a line of a netlist.
pub fn blif_text(alloc: Global, kind: &BlifKind) -> Result<Vec<u8>, AllocError>
    ensures { IfOk result (λ text. text.items ≡ blif_text_of kind.now) }
{
    match kind {
        BlifKind::Unsupported(word) => with_name(alloc, b"unsupported command ", word),
        BlifKind::NoModel => Vec::from_slice(alloc, b"no model"),
        BlifKind::RowWithoutTable => Vec::from_slice(alloc, b"row without table"),
        BlifKind::BadWords => Vec::from_slice(alloc, b"bad words"),
        BlifKind::TooMany(limit) => too_many(alloc, *limit),
        BlifKind::LevelLatch => Vec::from_slice(alloc, b"level latch"),
        BlifKind::BadInit => Vec::from_slice(alloc, b"bad initial value"),
        BlifKind::RepeatedModel(name) => with_name(alloc, b"repeated model ", name),
        BlifKind::BadRow => Vec::from_slice(alloc, b"bad row"),
        BlifKind::MixedRows => Vec::from_slice(alloc, b"mixed rows"),
    }
}

/// The text of a fault of a command as models are copied.
pub fn flat_text(alloc: Global, kind: &FlatKind) -> Result<Vec<u8>, AllocError>
    ensures { IfOk result (λ text. text.items ≡ flat_text_of kind.now) }
{
    match kind {
        FlatKind::UnknownModel(name) => with_name(alloc, b"unknown model ", name),
        FlatKind::Recursive(names) => with_names(alloc, b"recursive models:", names.as_slice()),
        FlatKind::UnknownFormal(name) => with_name(alloc, b"unknown formal ", name),
        FlatKind::TooMany(limit) => too_many(alloc, *limit),
    }
}

/// The text of a fault of a line of vectors.
pub fn vector_text(alloc: Global, kind: VectorKind) -> Result<Vec<u8>, AllocError>
    ensures { IfOk result (λ text. text.items ≡ vector_text_of kind) }
{
    match kind {
        VectorKind::TooMany(limit) => too_many(alloc, limit),
        VectorKind::BadWidth => Vec::from_slice(alloc, b"bad width"),
        VectorKind::BadBit => Vec::from_slice(alloc, b"bad bit"),
    }
}

/// A text with a name behind it.
pub fn with_name(alloc: Global, text: &[u8], name: &Name) -> Result<Vec<u8>, AllocError>
    ensures { IfOk result (λ all. all.items ≡ text.now ++ name.now) }
{
    let mut all = Vec::from_slice(alloc, text)?;
    all.extend_from_slice(name.as_slice())?;
    Ok(all)
}

// A text with names behind it, each with a blank before it.
fn with_names(alloc: Global, text: &[u8], names: &[Name]) -> Result<Vec<u8>, AllocError>
    ensures { IfOk result (λ all. all.items ≡ text.now ++ with_blanks names.now) }
{
    let mut all = Vec::from_slice(alloc, text)?;
    for name in names {
        all.extend_from_slice(b" ")?;
        all.extend_from_slice(name.as_slice())?;
    }
    Ok(all)
}
