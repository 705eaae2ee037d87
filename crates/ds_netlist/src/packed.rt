//! The tables packed.
ghost use Rattle.std.specs.Prelude.{◌≡◌, ◌<◌, length, All, IfOk};
ghost use Rattle.ds_design.specs.Banked.{IsBankOf};

use ds_base::OutOfMemory;
use ds_cover::{Bank, Series};
use ds_design::Gate;
use std::alloc::Global;

// The tables packed, in this order.
pub(crate) fn series_of(
    alloc: Global,
    tables: &[Gate],
    order: Vec<u32>,
) -> Result<Series, OutOfMemory>
    requires { All (λ k. k < length tables.now) order.items }
    ensures order { IfOk result (λ series. series.order ≡ order.items) }
    ensures bank { IfOk result (λ series. IsBankOf tables.now series.tables) }
{
    let bank = bank_of(alloc, tables)?;
    match Series::of(alloc, bank, order) {
        Ok(series) => Ok(series),
        Err(_) => Err(OutOfMemory),
    }
}

// The tables packed, by their places.
fn bank_of(alloc: Global, tables: &[Gate]) -> Result<Bank, OutOfMemory>
    ensures ok { IfOk result (λ bank. IsBankOf tables.now bank) }
{
    let mut bank = Bank::new(alloc);
    for gate in tables {
        bank.add(&gate.table, gate.output)?;
    }
    Ok(bank)
}
