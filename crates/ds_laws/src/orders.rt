//! Laws of orders and ranks.
ghost use Rattle.ds_laws.specs.Orders.{OneOrder, RankedHasNoCycle};
ghost use Rattle.ds_laws.specs.Shaken.{OrdersGoByHandshakes};

/// From one event to another there is one required order at most.
pub fn one_order()
    ensures { OneOrder }
{}

/// Where a graph has ranks, no arcs without tokens lead in a circle.
pub fn ranked_has_no_cycle()
    ensures { RankedHasNoCycle }
{}

/// In what `graph --shake` writes, the two orders of each data edge go by way of the rise of its
/// request and of its acknowledge, with the tokens that they have.
pub fn orders_go_by_handshakes()
    ensures { OrdersGoByHandshakes }
{}
