//! Lines of a text, their words, and names in order.

use ds_base::OutOfMemory;
use ds_lines::{Lines, LinesFault, Names, lines};
use std::alloc::{AllocError, Global};

// Whether there are two lines, the first of three words, the second of one.
fn have_parts(lines: &Lines<'_>) -> bool {
    if lines.count() != 2 || lines.words(0) != 3 || lines.words(1) != 1 {
        return false;
    }
    let numbers = (lines.number(0), lines.number(1)) == (2, 5);
    numbers && lines.word(0, 2) == b"b".as_slice() && lines.line(1)[0] == b".end".as_slice()
}

// The parts of one line, one by one and whole, and the number of a line behind a joined one.
#[test]
fn the_parts_of_a_line(rt: HostRuntime) {
    let text = b"# head\n.names a \\\n\tb\r\n\n.end # tail";
    let Ok(lines) = lines(rt.alloc(), text) else {
        panic!(rt; "no lines");
    };
    assert!(rt; have_parts(&lines));
}

// Whether a refusal is told in these words.
fn is_told(alloc: Global, fault: LinesFault, want: &str) -> Result<bool, AllocError> {
    let text = format!(in alloc; "{fault}")?;
    Ok(text.as_str() == want)
}

#[test]
fn refusals_are_told_in_words(rt: HostRuntime) {
    let alloc = rt.alloc();
    let long = "the text has more than 16777216 bytes";
    assert!(rt; matches!(is_told(alloc, LinesFault::TooLong, long), Ok(true)));
    assert!(rt;
        matches!(
            is_told(alloc, LinesFault::Memory, "out of memory"),
            Ok(true)
        )
    );
}

// Whether two words have a place each, also where one is added again, and a third has none.
fn have_places(alloc: Global) -> Result<bool, OutOfMemory> {
    let mut names = Names::new(alloc);
    let first = names.insert(b"a")?;
    let second = names.insert(b"b")?;
    let again = names.insert(b"a")?;
    let added = first == (0, true) && second == (1, true) && again == (0, false);
    Ok(added && (names.len(), names.place(b"b"), names.place(b"c")) == (2, 1, 2))
}

#[test]
fn each_word_has_one_place(rt: HostRuntime) {
    assert!(rt; matches!(have_places(rt.alloc()), Ok(true)));
}
