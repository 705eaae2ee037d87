//! Values of some nets, as a row.
ghost use Rattle.std.specs.Prelude.{◌≡◌, ◌<◌, length, map, All};
ghost use Rattle.ds_cover.specs.Cover.{values_at};
ghost use Rattle.ds_design.specs.Circuit.{initial_value};

use ds_base::{NetId, Row3};
use ds_design::Register;

/// The values of these nets, one a place of `into`.
pub fn pick_values(nets: &Row3, these: &[NetId], into: &mut Row3)
    requires one_each { length into.old ≡ length these.now }
    requires within { All (λ net. net < length nets.now) these.now }
    ensures { into.new ≡ values_at nets.now these.now }
{
    for (i, net) in these.iter().enumerate() {
        into.set(i, nets.value(net.index()));
    }
}

/// The values of the registers' data nets, one a register.
pub fn pick_data(nets: &Row3, registers: &[Register], into: &mut Row3)
    requires one_each { length into.old ≡ length registers.now }
    requires within { All (λ r. r.data_net < length nets.now) registers.now }
    ensures { into.new ≡ values_at nets.now (map (λ r. r.data_net) registers.now) }
{
    for (i, register) in registers.iter().enumerate() {
        into.set(i, nets.value(register.data_net.index()));
    }
}

/// The values that the registers start at, one a register.
pub fn set_initial(registers: &[Register], into: &mut Row3)
    requires { length into.old ≡ length registers.now }
    ensures { into.new ≡ map (λ r. initial_value r.initial) registers.now }
{
    for (i, register) in registers.iter().enumerate() {
        into.set(i, register.start());
    }
}
