//! A class for each table: two tables have the same where the same cones have them.
ghost use Rattle.std.specs.Prelude.{◌≡◌, ◌≢◌, ◌≤◌, ◌<◌, All, AllPairs, IfOk, OnOk, length};
ghost use Rattle.ds_opening.specs.Classes.{AreClasses, AreMoved, HasTables, IsMovedTo, IsSplitBy};

use crate::gaps::close_gaps;
use ds_base::OutOfMemory;
use ds_settle::Cone;
use std::alloc::Global;

/// A class for each table, below the count.
#[derive(Drop)]
pub(crate) struct Classes {
    pub(crate) of: Vec<usize>,
    pub(crate) count: usize,
}

/// The classes of so many tables.
pub(crate) fn classes_of(
    alloc: Global,
    cones: &[Cone],
    tables: usize,
) -> Result<Classes, OutOfMemory>
    requires { All (HasTables tables) cones.now }
    ensures ok { IfOk result (λ v. AreClasses cones.now tables v.of.items) }
    ensures below { IfOk result (λ v. All (λ n. n < v.count) v.of.items) }
{
    let mut classes: Vec<usize> = vec![in alloc; 0; tables]?;
    let mut moved: Vec<usize> = vec![in alloc; 0; 1]?;
    for cone in cones {
        part(alloc, &mut classes, &mut moved, cone.tables())?;
    }
    Ok(Classes {
        of: classes,
        count: moved.len(),
    })
}

// Parts each class into those tables that are among these and those that are not. That leaves as
// many classes without tables as it moves, so they are numbered anew where there are more than
// twice as many as tables.
fn part(
    alloc: Global,
    classes: &mut Vec<usize>,
    moved: &mut Vec<usize>,
    tables: &[u32],
) -> Result<(), OutOfMemory>
    requires tables { All (λ k. k < length classes.old.items) tables.now }
    requires once { AllPairs (λ j k. j ≢ k) tables.now }
    requires classes { All (λ n. n < length moved.old.items) classes.old.items }
    requires moved { All (λ n. n < length moved.old.items) moved.old.items }
    requires some { 0 < length moved.old.items }

    ensures ok { OnOk result (IsSplitBy tables.now classes.old.items classes.new.items) }
    ensures same { OnOk result (length classes.new.items ≡ length classes.old.items) }
    ensures classes { OnOk result (All (λ n. n < length moved.new.items) classes.new.items) }
    ensures moved { OnOk result (All (λ n. n < length moved.new.items) moved.new.items) }
    ensures some { OnOk result (0 < length moved.new.items) }
{
    split(classes, moved, tables)?;
    if moved.len() / 2 <= classes.len() {
        return Ok(());
    }
    close_gaps(alloc, classes, moved)
}

// The same, where the tables that are among these move to classes of their own. For a
// class c `moved[c]` is the class to which its tables move, where that is not below `first`; what
// is lower stems from the cones before.
fn split(
    classes: &mut Vec<usize>,
    moved: &mut Vec<usize>,
    tables: &[u32],
) -> Result<(), OutOfMemory>
    requires tables { All (λ k. k < length classes.old.items) tables.now }
    requires once { AllPairs (λ j k. j ≢ k) tables.now }
    requires classes { All (λ n. n < length moved.old.items) classes.old.items }
    requires moved { All (λ n. n < length moved.old.items) moved.old.items }
    requires some { 0 < length moved.old.items }

    ensures ok { OnOk result (IsSplitBy tables.now classes.old.items classes.new.items) }
    ensures same { length classes.new.items ≡ length classes.old.items }
    ensures classes { OnOk result (All (λ n. n < length moved.new.items) classes.new.items) }
    ensures moved { OnOk result (All (λ n. n < length moved.new.items) moved.new.items) }
    ensures some { 0 < length moved.new.items }
{
    let first = moved.len();
    for table in tables {
        let place = *table as usize;
        classes[place] = moved_to(moved, first, classes[place])?;
    }
    Ok(())
}

// The class to which tables of a class move: a new one for the first of them.
fn moved_to(moved: &mut Vec<usize>, first: usize, class: usize) -> Result<usize, OutOfMemory>
    requires moved { AreMoved first moved.old.items }
    requires class { class < first }
    ensures ok { IfOk result (λ to. IsMovedTo first moved.old.items class to moved.new.items) }
    ensures some { length moved.old.items ≤ length moved.new.items }
{
    if moved[class] < first {
        moved[class] = moved.len();
        moved.push(0)?;
    }
    Ok(moved[class])
}
