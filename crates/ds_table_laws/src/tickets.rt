//! Laws of tickets: which they are, and in which order they are drawn.
ghost use Rattle.ds_table_laws.specs.DrawnTickets.{TicketsAreNumbers, TicketsFollow};

/// The tickets are exactly the numbers below the number of firings, and each is of one firing.
pub fn tickets_are_numbers()
    ensures { TicketsAreNumbers }
{}

/// Along each arc the firing that a firing waits for is there, and has a lower ticket.
pub fn tickets_follow()
    ensures { TicketsFollow }
{}
