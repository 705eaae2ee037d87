//! The rows of a table of three inputs.
ghost use Rattle.std.specs.Prelude.{◌≡◌, IfOk};
ghost use Rattle.ds_demo.specs.Demo.{marks_of, demo_rows};

use ds_base::{OutOfMemory, Seq};
use std::alloc::Global;

// A row for each number below eight at which the function has a 1, rising.
pub(crate) fn rows(alloc: Global, function: u8) -> Result<Seq<Seq<u8>>, OutOfMemory>
    ensures { IfOk result (λ r. r ≡ demo_rows function) }
{
    let mut all = Vec::with_capacity(alloc, 8)?;
    for number in 0..8 {
        if (function >> number) % 2 == 1 {
            all.push(marks(alloc, number)?)?;
        }
    }
    Ok(Seq::of(all))
}

// The characters of the lowest three bits, the lowest first.
fn marks(alloc: Global, number: u8) -> Result<Seq<u8>, OutOfMemory>
    ensures { IfOk result (λ m. m ≡ marks_of number) }
{
    let marks = [
        b'0' + number % 2,
        b'0' + (number >> 1) % 2,
        b'0' + (number >> 2) % 2,
    ];
    Ok(Seq::of(Vec::from_slice(alloc, &marks)?))
}
