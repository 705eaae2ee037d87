//! Windows that are read by pieces and of a pipe, limits, failed reads, and lines of any length.
use crate::pipe::Pipe;
use ds_base::{Seq, Value};
use ds_design::Vectors;
use ds_lines::At;
use ds_outside::{Entry, MemoryFiles};
use ds_stream::{NextFault, StreamKind, VectorReader};
use std::alloc::{AllocError, Global};

// A file `v` with these bytes, read by pieces of at most so many bytes; 0 is no bound.
fn file(alloc: Global, bytes: &[u8], at_most: usize) -> Result<MemoryFiles, AllocError> {
    let entry = Entry {
        name: Seq::of(Vec::from_slice(alloc, b"v")?),
        content: Seq::of(Vec::from_slice(alloc, bytes)?),
    };
    let mut entries = Vec::new(alloc);
    entries.push(entry)?;
    let mut files = MemoryFiles::of(alloc, entries);
    if at_most > 0 {
        files.at_most(at_most);
    }
    Ok(files)
}

// A fault of this kind on this line.
fn is_fault(
    answer: &Result<(VectorReader, Vectors), NextFault>,
    number: u64,
    wanted: StreamKind,
) -> bool {
    match answer {
        Err(NextFault::Vector(At { line, kind })) => *line == number && *kind == wanted,
        _ => false,
    }
}

// Whether a window of two vectors, one of one and a line that is too wide are read of a file.
fn are_windows(alloc: Global, files: &mut MemoryFiles) -> Result<bool, NextFault> {
    let (reader, rows) = VectorReader::new(2, 9).next(alloc, files, "v", 2)?;
    let first = (reader.place(), reader.lines()) == (13, 4)
        && rows.count() == 2
        && rows.row(1).value(1) == Value::Unknown;
    let (reader, rows) = reader.next(alloc, files, "v", 1)?;
    let second = (rows.count(), reader.place(), reader.lines()) == (1, 24, 6);
    let last = reader.next(alloc, files, "v", 5);
    Ok(first && second && is_fault(&last, 7, StreamKind::BadWidth))
}

// Whether they are read by pieces of at most so many bytes.
fn are_read_by(alloc: Global, at_most: usize) -> Result<bool, NextFault> {
    let text = b"# a\n10\n\n 0x\r\n\\\n11 # x \\\n0\\\n0\n";
    let mut files = file(alloc, text, at_most)?;
    are_windows(alloc, &mut files)
}

#[test]
fn windows_are_read_by_any_pieces(rt: HostRuntime) {
    for at_most in [1usize, 2, 3, 100] {
        assert!(rt; matches!(are_read_by(rt.alloc(), at_most), Ok(true)));
    }
}

// Reads one vector of two columns of this text by single bytes.
fn one(alloc: Global, text: &str) -> Result<(VectorReader, Vectors), NextFault> {
    let mut files = file(alloc, text.as_bytes(), 1)?;
    VectorReader::new(2, 9).next(alloc, &mut files, "v", 1)
}

// Whether the one vector of this text has a fault of this kind on this line.
fn is_refused(alloc: Global, text: &str, number: u64, wanted: StreamKind) -> bool {
    is_fault(&one(alloc, text), number, wanted)
}

// Texts of one vector, parted by `|`.
const GOOD: &str = "     10|10      |10   \\  \\  \n\n|10 \\\n\\\n   # 1\n";

// Texts of one line that is too wide, parted by `|`.
const WIDE: &str = "10\\  1|101|1 0|1\\\n0|10    0|10\\\\\\0|10 \\\n  \\\n0";

// The first text of one vector that is not read.
fn first_unread(alloc: Global) -> Option<&'static str> {
    for text in GOOD.split('|') {
        if one(alloc, text).is_err() {
            return Some(text);
        }
    }
    None
}

// The first text of a wide line that is not refused as such.
fn first_unrefused(alloc: Global) -> Option<&'static str> {
    for text in WIDE.split('|') {
        if !is_refused(alloc, text, 1, StreamKind::BadWidth) {
            return Some(text);
        }
    }
    None
}

#[test]
fn long_lines_are_read_as_short_ones(rt: HostRuntime) {
    let alloc = rt.alloc();
    assert_eq!(rt; (first_unread(alloc), first_unrefused(alloc)), (None, None));
    let second = is_refused(alloc, "\n1z", 2, StreamKind::BadBit);
    assert!(rt; second && is_refused(alloc, "\\1", 1, StreamKind::BadBit));
}

// Whether the fourth vector of a file is refused where it may have three.
fn is_fourth_refused(alloc: Global) -> Result<bool, NextFault> {
    let mut files = file(alloc, b"1\n1\n1\n1", 100)?;
    let (reader, rows) = VectorReader::new(1, 3).next(alloc, &mut files, "v", 2)?;
    let last = reader.next(alloc, &mut files, "v", 2);
    Ok(rows.count() == 2 && is_fault(&last, 4, StreamKind::TooMany(3)))
}

#[test]
fn one_vector_too_many_is_refused(rt: HostRuntime) {
    assert!(rt; matches!(is_fourth_refused(rt.alloc()), Ok(true)));
}

// Whether a read that fails is told.
fn is_failure_told(alloc: Global) -> Result<bool, NextFault> {
    let mut files = file(alloc, b"1\n1\n1\n1", 100)?;
    let failing = files.fail_at(1).is_ok();
    let answer = VectorReader::new(1, 9).next(alloc, &mut files, "v", 4);
    Ok(failing && matches!(&answer, Err(NextFault::Read)))
}

#[test]
fn a_failed_read_is_told(rt: HostRuntime) {
    assert!(rt; matches!(is_failure_told(rt.alloc()), Ok(true)));
}

// Whether two vectors without values are read of a file, and then none.
fn is_ended(alloc: Global, files: &mut MemoryFiles) -> Result<bool, NextFault> {
    let (reader, rows) = VectorReader::new(0, 9).next(alloc, files, "v", 4)?;
    let both = (rows.count(), reader.place(), reader.lines()) == (2, 3, 2);
    let (reader, rows) = reader.next(alloc, files, "v", 4)?;
    Ok(both && (rows.count(), reader.given()) == (0, 2))
}

#[test]
fn a_file_ends_and_stays_at_its_end(rt: HostRuntime) {
    let Ok(mut files) = file(rt.alloc(), b"-\n-", 100) else {
        panic!(rt; "memory");
    };
    assert!(rt; matches!(is_ended(rt.alloc(), &mut files), Ok(true)));
}

// The same values in the same rows.
fn are_same(one: &Vectors, other: &Vectors) -> bool {
    if one.count() != other.count() {
        return false;
    }
    for k in 0..one.count() {
        if one.row(k).values() != other.row(k).values() {
            return false;
        }
    }
    true
}

// Whether two pipes give the same windows, the second no byte behind one that is full.
fn give_same(alloc: Global, files: &mut Pipe, pipe: &mut Pipe) -> Result<bool, NextFault> {
    let mut of_file = VectorReader::new(2, 9);
    let mut of_pipe = VectorReader::new(2, 9);
    let mut all = true;
    for count in [2usize, 1, 3, 1, 4] {
        let (next, rows) = of_file.next(alloc, files, "v", count)?;
        let (behind, others) = of_pipe.next(alloc, pipe, "v", count)?;
        let near = rows.count() < count || pipe.given() == behind.place();
        all = all && near && are_same(&rows, &others);
        of_file = next;
        of_pipe = behind;
    }
    Ok(all && of_pipe.given() == 7)
}

// Whether a pipe that gives at most so many bytes at once gives the rows of one that gives all.
fn gives_rows(alloc: Global, most: usize) -> Result<bool, NextFault> {
    let text = b"# a\n10\n\n 0x\r\n11\n01\\\n \n00 # b\n1x\nxx\n\n";
    let mut files = Pipe::of(alloc, text, 100)?;
    let mut pipe = Pipe::of(alloc, text, most)?;
    let same = give_same(alloc, &mut files, &mut pipe)?;
    Ok(same && !pipe.is_broken())
}

#[test]
fn a_pipe_gives_the_rows_of_a_file(rt: HostRuntime) {
    for most in [1usize, 2, 3, 5, 100] {
        assert!(rt; matches!(gives_rows(rt.alloc(), most), Ok(true)), "{most}");
    }
}

// Four hundred lines of three values.
fn long_text(alloc: Global) -> Result<Vec<u8>, AllocError> {
    let mut text = Vec::new(alloc);
    for _ in 0..400 {
        text.extend_from_slice(b"01x\n")?;
    }
    Ok(text)
}

// Whether four windows of a hundred vectors are read, none by a byte behind its last line.
fn are_hundreds(alloc: Global, pipe: &mut Pipe) -> Result<bool, NextFault> {
    let mut reader = VectorReader::new(3, 400);
    let mut all = true;
    for _ in 0..4 {
        let (next, rows) = reader.next(alloc, pipe, "v", 100)?;
        let whole = rows.count() == 100 && rows.row(99).values().len() == 3;
        all = all && whole && pipe.given() == next.place();
        reader = next;
    }
    Ok(all && reader.lines() == 400 && !pipe.is_broken())
}

// Whether a pipe of a long text is read so.
fn is_read_to_its_end(alloc: Global) -> Result<bool, NextFault> {
    let text = long_text(alloc)?;
    let mut pipe = Pipe::of(alloc, &text, 1000)?;
    are_hundreds(alloc, &mut pipe)
}

#[test]
fn long_windows_are_read_to_their_last_line(rt: HostRuntime) {
    assert!(rt; matches!(is_read_to_its_end(rt.alloc()), Ok(true)));
}
