//! The nets of a cone.
ghost use Rattle.std.specs.Prelude.{◌≡◌, length};
ghost use Rattle.ds_settle.specs.Cone.{AreInOrder, IsPartSettled};

use crate::Cone;
use ds_base::Row3;
use ds_design::Netlist;

/// Gives the output of each table of the cone the table's value, where the other nets stand as they
/// are: the sources of the cone are to be set before.
pub fn settle_part(netlist: &Netlist, cone: &Cone, nets: &mut Row3)
    requires cone { AreInOrder netlist.now cone.now.tables }
    requires nets { length nets.old ≡ length netlist.now.nets }
    ensures { IsPartSettled netlist.now cone.now nets.old nets.new }
{
    // Read for the facts that it is accepted, and that its numbers name what is there.
    let _design = netlist.design();
    netlist.bank().set_all(cone.tables(), nets);
}
