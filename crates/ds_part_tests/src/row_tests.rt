//! Rows of values, and their words.
ghost use Rattle.std.specs.Prelude.{◌≡◌, ◌<◌, length};

use ds_base::{OutOfMemory, Row3, Value};
use std::alloc::{AllocError, Global};

fn row(alloc: Global, text: &str) -> Result<Row3, AllocError> {
    let mut values = Vec::new(alloc);
    for c in text.bytes() {
        values.push(match c {
            b'0' => Value::Zero,
            b'1' => Value::One,
            _ => Value::Unknown,
        })?;
    }
    Ok(Row3::of(values))
}

// Whether the row of this text has this word at its place.
fn has_word(alloc: Global, text: &str, i: usize, want: u64) -> bool
    requires { i < 2 }
{
    match row(alloc, text) {
        Ok(values) => 32 * i < values.len() && values.word(i) == want,
        Err(_) => false,
    }
}

// Codes are 0, 1 and 2, two bits each, the first value the lowest.
#[test]
fn a_word_has_thirty_two_values(rt: HostRuntime) {
    let alloc = rt.alloc();
    let short = has_word(alloc, "0", 0, 0) && has_word(alloc, "01x", 0, 36);
    assert!(rt; short && has_word(alloc, "x1", 0, 6));
    let long = has_word(
        alloc,
        "1111111111111111111111111111111x",
        0,
        0x9555_5555_5555_5555,
    );
    assert!(rt; long && has_word(alloc, "000000000000000000000000000000001x", 1, 9));
}

// Whether three zeros are zeros, take an unknown value, and then the values of another row, x10.
fn are_set(zeros: &mut Row3, other: &Row3) -> bool
    requires zeros { length zeros.old ≡ 3 }
    requires other { length other.now ≡ 3 }
{
    let start = zeros.value(1) == Value::Zero && zeros.all_known();
    zeros.set(1, Value::Unknown);
    let set = !zeros.all_known() && zeros.word(0) == 8;
    zeros.copy_from(other);
    start && set && zeros.word(0) == 6
}

// Whether a new row of three has zeros, which are set.
fn starts_with_zeros(alloc: Global) -> Result<bool, OutOfMemory> {
    let mut zeros = Row3::with_len(alloc, 3)?;
    let other = row(alloc, "x10")?;
    Ok(zeros.len() == 3 && other.len() == 3 && are_set(&mut zeros, &other))
}

#[test]
fn a_row_starts_with_zeros_and_is_set(rt: HostRuntime) {
    assert!(rt; matches!(starts_with_zeros(rt.alloc()), Ok(true)));
}
