//! All nets of a turn: the sources are set, then each table in order. Where no source is unknown,
//! tables are set without a look for unknown values.
ghost use Rattle.std.specs.Prelude.{◌≡◌, ◌≢◌, ◌↔◌, ◌<◌, ℕ, IsTrue, [], length, map, All, AllPairs};
ghost use Rattle.ds_base.specs.Values.{AreKnown};
ghost use Rattle.ds_cover.specs.Cover.{value_at, values_at};
ghost use Rattle.ds_design.specs.Circuit.{columns, register_nets, drivers};
ghost use Rattle.ds_design.specs.Valuation.{IsValuation};
ghost use Rattle.ds_settle.specs.Settle.{IsSettledTo, LeavesOthers};
ghost use Rattle.ds_base.specs.declared.value.Value.TheVariants.{Zero};

use ds_base::{NetId, Row3, Value};
use ds_design::{Netlist, Register};

/// Lets `nets` be the valuation of this state, one value per register, and this vector, one value
/// per column. What `nets` held before does not matter.
pub fn settle(netlist: &Netlist, state: &Row3, vector: &Row3, nets: &mut Row3)
    requires state { length state.now ≡ length netlist.now.registers }
    requires vector { length vector.now ≡ length (columns netlist.now) }
    requires nets { length nets.old ≡ length netlist.now.nets }

    ensures { IsValuation netlist.now state.now vector.now nets.new }
{
    set_sources(netlist, state, vector, nets);
    let series = netlist.series();
    // Read for the facts that it is accepted, and that its numbers name what is there.
    let _design = netlist.design();
    if are_known(state, vector) {
        series.set_all_known(nets);
    } else {
        series.set_all(nets);
    }
}

// Whether no value of both is unknown.
fn are_known(state: &Row3, vector: &Row3) -> bool
    ensures { IsTrue result ↔ AreKnown state.now × AreKnown vector.now }
{
    state.all_known() && vector.all_known()
}

// Sets the columns and the registers, and all other nets to 0.
fn set_sources(netlist: &Netlist, state: &Row3, vector: &Row3, nets: &mut Row3)
    requires state { length state.now ≡ length netlist.now.registers }
    requires vector { length vector.now ≡ length (columns netlist.now) }
    requires nets { length nets.old ≡ length netlist.now.nets }
    ensures sources { IsSettledTo netlist.now state.now vector.now nets.new [] 0 }
    ensures known { AreKnown state.now → AreKnown vector.now → AreKnown nets.new }
{
    let registers = netlist.design().registers();
    clear(nets);
    set_bits(nets, netlist.columns(), vector);
    set_registers(nets, registers, state);
}

// Zeros.
fn clear(nets: &mut Row3)
    ensures same { length nets.new ≡ length nets.old }
    ensures zero { (net : ℕ) → value_at nets.new net ≡ Zero }
{
    clear_values(nets.values_mut());
}

// The same on the values that a row lends, which no store moves.
fn clear_values(nets: &mut [Value])
    ensures same { length nets.new ≡ length nets.old }
    ensures zero { (net : ℕ) → value_at nets.new net ≡ Zero }
{
    for net in 0..nets.len() {
        nets[net] = Value::Zero;
    }
}

// Sets these nets, no two of which are the same.
fn set_bits(nets: &mut Row3, these: &[NetId], bits: &Row3)
    requires within { All (λ net. net < length nets.old) these.now }
    requires once { AllPairs (λ a b. a ≢ b) these.now }
    requires one_each { length bits.now ≡ length these.now }
    ensures same { length nets.new ≡ length nets.old }
    ensures set { values_at nets.new these.now ≡ bits.now }
    ensures others { LeavesOthers these.now nets.old nets.new }
    ensures known { AreKnown bits.now → AreKnown nets.old → AreKnown nets.new }
{
    for (i, net) in these.iter().enumerate() {
        nets.set(net.index(), bits.value(i));
    }
}

// Sets the nets that the registers drive.
fn set_registers(nets: &mut Row3, registers: &[Register], bits: &Row3)
    requires within { All (λ r. r.output < length nets.old) registers.now }
    requires once { AllPairs (λ a b. a ≢ b) (map (λ r. r.output) registers.now) }
    requires one_each { length bits.now ≡ length registers.now }
    ensures same { length nets.new ≡ length nets.old }
    ensures set { values_at nets.new (map (λ r. r.output) registers.now) ≡ bits.now }
    ensures others { LeavesOthers (map (λ r. r.output) registers.now) nets.old nets.new }
    ensures known { AreKnown bits.now → AreKnown nets.old → AreKnown nets.new }
{
    for (i, register) in registers.iter().enumerate() {
        nets.set(register.output.index(), bits.value(i));
    }
}
