//! What is wrong with a netlist.
ghost use Rattle.std.specs.Prelude.{◌≡◌};

use ds_base::{NetId, OutOfMemory, RegId, Seq};
use std::alloc::AllocError;

/// What drives a net: the vectors, or the table or the register (`.latch`) at a line of the file.
#[derive(Clone, Copy, Debug, PartialEq, Eq)]
pub enum Driver {
    Input,
    Table(u64),
    Latch(u64),
}

/// The first of these that a netlist has, or want of memory. Where several nets have one fault, it
/// is shown at the least.
#[derive(Drop)]
pub enum NetFault {
    /// The first control name, and the first other one. The control names are the `.clock` nets,
    /// then the controls of the registers.
    SeveralClocks(NetId, NetId),
    /// The first register with a rising edge, and the first with a falling one.
    MixedEdges(RegId, RegId),
    /// The clock, which a table or a register drives.
    DrivenClock(NetId),
    /// The clock, which is an input of a table or a register, or an output of the design.
    ClockAsData(NetId),
    /// A net, and its first two drivers: the column, then tables, then registers, as they stand.
    MultiplyDriven(NetId, Driver, Driver),
    /// A net that is used and that nothing drives.
    Undriven(NetId),
    /// Nets, each an input of the table of the next, the last of the first's, which is the least.
    CombinationalCycle(Seq<NetId>),
    /// Memory was wanted and not found.
    Memory,
}

impl From<OutOfMemory> for NetFault {
    ghost use Rattle.ds_netlist.specs.declared.fault.NetFault.TheVariants.{Memory};

    ghost from_gives = { λ _ fault. fault ≡ Memory };

    fn from(_: OutOfMemory) -> Self {
        NetFault::Memory
    }
}

impl From<AllocError> for NetFault {
    ghost use Rattle.ds_netlist.specs.declared.fault.NetFault.TheVariants.{Memory};

    ghost from_gives = { λ _ fault. fault ≡ Memory };

    fn from(_: AllocError) -> Self {
        NetFault::Memory
    }
}
