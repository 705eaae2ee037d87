//! Why nodes have no ranks.

use ds_base::OutOfMemory;

/// Why there is no order.
#[derive(Debug, Drop)]
pub enum OrderFault {
    /// Edges lead from each of these nodes to the next and from the last to the first.
    Cycle(Vec<u32>),
    /// Memory was wanted and not found.
    Memory,
}

impl From<OutOfMemory> for OrderFault {
    ghost use Rattle.std.specs.Prelude.{◌≡◌};
    ghost use Rattle.ds_rank.specs.declared.order_fault.OrderFault.TheVariants.{Memory};

    ghost from_gives = { λ _ fault. fault ≡ Memory };

    fn from(_: OutOfMemory) -> Self {
        OrderFault::Memory
    }
}
