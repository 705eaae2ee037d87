//! Scripts whose parts name the texts with which they begin, spelled out.
use crate::texts::{EXPANSION, FURTHER, GRAPH, RANKS, RING, SHIFT, TOGGLE};
use std::alloc::{AllocError, Global};

/// A script in which each part that names a file behind `<` has the text of the file, behind parts
/// with the files that are there from the start. A part that names none that is there, or changes
/// lines that do not stand in it, stays as it is.
pub fn spelled_out(alloc: Global, before: &str, script: &str) -> Result<String, AllocError> {
    let mut all = String::new(alloc);
    for piece in ["%toggle\n", TOGGLE, "%graph\n", GRAPH, "%ranks\n", RANKS] {
        all.push_str(piece)?;
    }
    for piece in ["%toggled\n", EXPANSION, "%ring\n", RING, "%shift\n", SHIFT] {
        all.push_str(piece)?;
    }
    for text in [FURTHER, before, script] {
        push_parts(alloc, &mut all, text)?;
    }
    Ok(all)
}

// Appends the parts of a text, each spelled out by those before it.
fn push_parts(alloc: Global, all: &mut String, text: &str) -> Result<(), AllocError> {
    for part in text.split('%') {
        push_part(alloc, all, part)?;
    }
    Ok(())
}

// Appends a part, spelled out by those before it.
fn push_part(alloc: Global, all: &mut String, part: &str) -> Result<(), AllocError> {
    match spelled(alloc, all.as_str(), part)? {
        Some(text) => all.push_str(text.as_str()),
        None => {
            all.push_str("%")?;
            all.push_str(part)
        }
    }
}

// A part that names a file, with the text of the file.
fn spelled(alloc: Global, all: &str, part: &str) -> Result<Option<String>, AllocError> {
    let Some((first, rest)) = part.split_once('\n') else {
        return Ok(None);
    };
    let Some((kind, name)) = first.split_once(" < ") else {
        return Ok(None);
    };
    match text_of(all, name) {
        Some(text) if kind == "$" => Ok(Some(command_lines(alloc, text)?)),
        Some(text) => changed(alloc, kind, text, rest),
        None => Ok(None),
    }
}

// What stands in a file, by the last part of its name.
fn text_of<'t>(all: &'t str, name: &str) -> Option<&'t str> {
    let mut last = None;
    for part in all.split('%') {
        if let Some((first, text)) = part.split_once('\n') {
            last = if first == name { Some(text) } else { last };
        }
    }
    last
}

// Parts that are the command lines of a text.
fn command_lines(alloc: Global, text: &str) -> Result<String, AllocError> {
    let mut parts = String::new(alloc);
    for line in text.lines() {
        for piece in ["%$ ", line, "\n"] {
            parts.push_str(piece)?;
        }
    }
    Ok(parts)
}

// A part with this text, where the lines behind `=>` stand in place of those before it, or the
// further lines behind the text.
fn changed(
    alloc: Global,
    kind: &str,
    text: &str,
    rest: &str,
) -> Result<Option<String>, AllocError> {
    let Some((old, new)) = rest.split_once("=>\n") else {
        return Ok(Some(part_of(alloc, kind, [text, rest, ""])?));
    };
    match text.split_once(old) {
        Some((before, after)) => Ok(Some(part_of(alloc, kind, [before, new, after])?)),
        None => Ok(None),
    }
}

// A part with a first line and a text in pieces.
fn part_of(alloc: Global, kind: &str, pieces: [&str; 3]) -> Result<String, AllocError> {
    let mut part = String::from_str(alloc, "%")?;
    part.push_str(kind)?;
    part.push_str("\n")?;
    for piece in pieces {
        part.push_str(piece)?;
    }
    Ok(part)
}
