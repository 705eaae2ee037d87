//! Classes without gaps between their numbers.
ghost use Rattle.std.specs.Prelude.{◌<◌, ◌-◌, ◌^◌, All, IfOk, OnOk, length};
ghost use Rattle.ds_opening.specs.Gaps.{AreAnew};

use crate::classes::Classes;
use ds_base::OutOfMemory;
use std::alloc::Global;

/// Numbers the classes anew, without gaps; none has moved then.
pub(crate) fn close_gaps(
    alloc: Global,
    classes: &mut Vec<usize>,
    moved: &mut Vec<usize>,
) -> Result<(), OutOfMemory>
    requires classes { All (λ n. n < length moved.old.items) classes.old.items }
    requires some { 0 < length moved.old.items }

    ensures ok { OnOk result
        (AreAnew classes.old.items (length moved.new.items) classes.new.items) }
    ensures moved { OnOk result (All (λ n. n < length moved.new.items) moved.new.items) }
    ensures some { 0 < length moved.new.items }
{
    let anew = without_gaps(alloc, classes.as_slice(), moved.len())?;
    *moved = vec![in alloc; 0; anew.count + 1]?;
    *classes = anew.of;
    Ok(())
}

// The same classes by numbers from 0 on, in the order in which they come.
fn without_gaps(alloc: Global, classes: &[usize], count: usize) -> Result<Classes, OutOfMemory>
    requires { All (λ n. n < count) classes.now }
    ensures ok { IfOk result (λ v. AreAnew classes.now v.count v.of.items) }
    ensures few { IfOk result (λ v. v.count < 2 ^ 64 - 1) }
{
    // One more than the number of each class that has come, 0 for the others.
    let mut numbers: Vec<usize> = vec![in alloc; 0; count]?;
    let mut of: Vec<usize> = Vec::with_capacity(alloc, classes.len())?;
    let mut next = 0;
    for class in classes {
        if numbers[*class] == 0 {
            next += 1;
            numbers[*class] = next;
        }
        of.push(numbers[*class] - 1)?;
    }
    Ok(Classes { of, count: next })
}
