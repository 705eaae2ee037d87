//! Tables of one kind that are set one after another.
ghost use Rattle.std.specs.Prelude.{◌≡◌, ◌+◌, ◌-◌, ◌<◌, ◌≤◌, true, All, OnOk, length};
ghost use Rattle.ds_cover.specs.Bank.{AreNetsWithin, after_tables};
ghost use Rattle.ds_cover.specs.Series.{AreAdded, FindsKnown, IsRunOfTables, IsRunAdded};
ghost use Rattle.ds_cover.specs.Series.{after_each, in_table_order, numbers_in, numbers_of};
ghost use Rattle.ds_cover.specs.Series.{own_tables, shelves_of};

use crate::Bank;
use crate::lists::Lists;
use ds_base::Row3;
use std::alloc::AllocError;

/// How tables are kept: by how many inputs they have.
#[derive(Clone, Copy)]
pub enum TableKind {
    /// One or two.
    Twos,
    /// Three.
    Threes,
    /// Four.
    Fours,
    /// Five.
    Fives,
    /// Six.
    Sixes,
    /// None, or more than six.
    Others,
}

/// Tables of one kind that stand one after another.
#[derive(Clone, Copy)]
pub struct Run {
    /// The kind.
    pub kind: TableKind,
    /// The number of the first table.
    pub at: usize,
    /// The place of the first one in the list of its kind; for others the number.
    pub first: usize,
    /// The place behind the last one.
    pub end: usize,
}

// Adds the tables of an order from this place on to the lists of their kinds, and their runs behind
// the runs that are there.
pub(crate) fn add_from(
    lists: &mut Lists,
    runs: &mut Vec<Run>,
    bank: &Bank,
    order: &[u32],
    start: usize,
) -> Result<(), AllocError>
    requires places { All (λ k. k < length bank.now) order.now }
    requires start { start ≤ length order.now }
    ensures { OnOk result (AreAdded (shelves_of lists.old) (shelves_of lists.new)
        (in_table_order bank.now order.now) start runs.old.items runs.new.items) }
{
    let others = runs.len();
    for at in start..order.len() {
        let table = order[at] as usize;
        let run = lists.add(bank.quick(table), bank, table, at)?;
        push_run(runs, others, run)?;
    }
    Ok(())
}

// Adds a run of one table: to the last run where that is none of the first ones, is of its kind and
// ends where it begins.
fn push_run(runs: &mut Vec<Run>, others: usize, run: Run) -> Result<(), AllocError>
    ensures { OnOk result (IsRunAdded others runs.old.items run runs.new.items) }
{
    if let Some(last) = runs.pop() {
        if runs.len() >= others && joins(&last, &run) {
            runs.push(Run {
                kind: last.kind,
                at: last.at,
                first: last.first,
                end: run.end,
            })?;
            return Ok(());
        }
        runs.push(last)?;
    }
    runs.push(run)?;
    Ok(())
}

// Whether a run goes on where another ends.
fn joins(last: &Run, run: &Run) -> bool
    ensures { result ≡ true → (last.now.kind ≡ run.now.kind) × (last.now.end ≡ run.now.first) }
{
    match (last.kind, run.kind) {
        (TableKind::Twos, TableKind::Twos)
        | (TableKind::Threes, TableKind::Threes)
        | (TableKind::Fours, TableKind::Fours)
        | (TableKind::Fives, TableKind::Fives)
        | (TableKind::Sixes, TableKind::Sixes)
        | (TableKind::Others, TableKind::Others) => last.end == run.first,
        _ => false,
    }
}

// Sets what the tables of these runs drive, one after another, where each finds its inputs known.
pub(crate) fn set_known_runs(
    runs: &[Run],
    lists: &Lists,
    bank: &Bank,
    order: &[u32],
    nets: &mut Row3,
)
    requires places { All (λ k. k < length bank.now) order.now }
    requires runs { All (IsRunOfTables (shelves_of lists.now)
        (in_table_order bank.now order.now)) runs.now }
    requires within { All (λ t. AreNetsWithin t nets.old) bank.now }
    requires known { FindsKnown (in_table_order bank.now (numbers_of order.now runs.now)) nets.old }
    ensures { nets.new ≡ after_tables bank.now nets.old (numbers_of order.now runs.now) }
{
    for run in runs {
        set_known(run, lists, bank, order, nets);
    }
}

// Sets what the tables of a run drive, where each finds its inputs known.
fn set_known(run: &Run, lists: &Lists, bank: &Bank, order: &[u32], nets: &mut Row3)
    requires places { All (λ k. k < length bank.now) order.now }
    requires run { IsRunOfTables (shelves_of lists.now) (in_table_order bank.now order.now)
        run.now }
    requires within { All (λ t. AreNetsWithin t nets.old) bank.now }
    requires known { FindsKnown (own_tables (in_table_order bank.now order.now) run.now) nets.old }
    ensures { nets.new ≡ after_each (own_tables (in_table_order bank.now order.now) run.now)
        nets.old }
{
    let (first, end) = (run.first, run.end);
    match run.kind {
        TableKind::Twos => lists.twos.set(first, end, nets),
        TableKind::Threes => lists.threes.set(first, end, nets),
        TableKind::Fours => lists.fours.set(first, end, nets),
        TableKind::Fives => lists.fives.set(first, end, nets),
        TableKind::Sixes => lists.sixes.set(first, end, nets),
        TableKind::Others => bank.set_all(own_order(run, order), nets),
    }
}

// Sets what the tables of these runs drive, one after another.
pub(crate) fn set_runs(runs: &[Run], lists: &Lists, bank: &Bank, order: &[u32], nets: &mut Row3)
    requires places { All (λ k. k < length bank.now) order.now }
    requires runs { All (IsRunOfTables (shelves_of lists.now)
        (in_table_order bank.now order.now)) runs.now }
    requires within { All (λ t. AreNetsWithin t nets.old) bank.now }
    ensures { nets.new ≡ after_tables bank.now nets.old (numbers_of order.now runs.now) }
{
    for run in runs {
        set_run(run, lists, bank, order, nets);
    }
}

// Sets what the tables of a run drive.
fn set_run(run: &Run, lists: &Lists, bank: &Bank, order: &[u32], nets: &mut Row3)
    requires places { All (λ k. k < length bank.now) order.now }
    requires run { IsRunOfTables (shelves_of lists.now) (in_table_order bank.now order.now)
        run.now }
    requires within { All (λ t. AreNetsWithin t nets.old) bank.now }
    ensures { nets.new ≡ after_each (own_tables (in_table_order bank.now order.now) run.now)
        nets.old }
{
    let (first, end) = (run.first, run.end);
    match run.kind {
        TableKind::Twos => lists.twos.set_worded(first, end, nets),
        TableKind::Threes => lists.threes.set_worded(first, end, nets),
        _ => bank.set_all(own_order(run, order), nets),
    }
}

// The numbers of the tables of a run.
fn own_order<'a>(run: &Run, order: &'a [u32]) -> &'a [u32]
    requires low { run.now.first ≤ run.now.end }
    requires fits { run.now.at + (run.now.end - run.now.first) ≤ length order.now }
    ensures { result.now ≡ numbers_in order.now run.now }
{
    &order[run.at..run.at + (run.end - run.first)]
}
