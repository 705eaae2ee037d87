//! A walk from nets back through the tables that drive them.
ghost use Rattle.std.specs.Prelude.{◌≡◌, ◌<◌, ◌∷◌, [], length, All, IfOk, OnOk, Option};
ghost use Rattle.ds_settle.specs.Walk.{AreMet, AreReached, with_found};

use crate::Cone;
use crate::drivers::Drivers;
use crate::marks::Marks;
use ds_base::{NetId, OutOfMemory};
use std::alloc::Global;

// The tables and sources that reach these nets. The tables that are found are followed in the order
// in which they are found.
pub(crate) fn walk(
    alloc: Global,
    drivers: &Drivers,
    marks: &mut Marks,
    these: &[NetId],
) -> Result<Cone, OutOfMemory>
    requires within { All (λ net. net < length drivers.now.nets) these.now }
    requires marks { length marks.old ≡ length drivers.now.nets }
    ensures ok { IfOk result (AreReached drivers.now these.now) }
    ensures same { length marks.new ≡ length marks.old }
{
    let tables = drivers.netlist().design().tables();
    marks.begin();
    let mut found = Cone::new(alloc);
    meet_all(drivers, marks, &mut found, these)?;
    let mut i = 0;
    'tables: while i < found.tables().len() {
        let table = found.tables()[i] as usize;
        meet_all(drivers, marks, &mut found, tables[table].table.inputs())?;
        i += 1;
    }
    Ok(found)
}

// Marks these nets, and takes what drives those that were not marked.
fn meet_all(
    drivers: &Drivers,
    marks: &mut Marks,
    found: &mut Cone,
    these: &[NetId],
) -> Result<(), OutOfMemory>
    requires within { All (λ net. net < length drivers.now.nets) these.now }
    requires marks { length marks.old ≡ length drivers.now.nets }
    ensures ok { OnOk result
        (AreMet drivers.now these.now marks.old found.old marks.new found.new) }
    ensures same { length marks.new ≡ length marks.old }
{
    for net in these {
        meet(drivers, marks, found, *net)?;
    }
    Ok(())
}

// Marks a net, and takes what drives it if it was not marked.
fn meet(
    drivers: &Drivers,
    marks: &mut Marks,
    found: &mut Cone,
    net: NetId,
) -> Result<(), OutOfMemory>
    requires within { net < length drivers.now.nets }
    requires marks { length marks.old ≡ length drivers.now.nets }
    ensures ok { OnOk result
        (AreMet drivers.now (net ∷ []) marks.old found.old marks.new found.new) }
    ensures same { length marks.new ≡ length marks.old }
{
    if marks.is_marked(net) {
        return Ok(());
    }
    take_driver(found, net, drivers.driver(net))?;
    marks.mark(net);
    Ok(())
}

// Takes the table that drives a net or, where none does, the net as a source.
fn take_driver(found: &mut Cone, net: NetId, driver: Option<u32>) -> Result<(), OutOfMemory>
    ensures { OnOk result (found.new ≡ with_found found.old net driver) }
{
    match driver {
        Some(table) => found.push_table(table),
        None => found.push_source(net),
    }
}
