//! Laws of the definitions, each the contract of a function that does nothing.
ghost use Rattle.ds_accept.specs.Laws.{AcceptableIsAccepted, AcceptFaultsAreRefused};
ghost use Rattle.ds_accept.specs.Laws.{OneAcceptFault, OnePlan};
ghost use Rattle.ds_accept.specs.Laws.{PlansAreAcceptable};
ghost use Rattle.ds_accept.specs.Laws.{LeastSumsAreLow, OneListOfSums};

/// A graph that has a fault is not acceptable.
pub fn faults_are_refused()
    ensures { AcceptFaultsAreRefused }
{}

/// An acceptable graph is accepted once the events of the nodes stand first, in their order.
pub fn acceptable_is_accepted()
    ensures { AcceptableIsAccepted }
{}

/// The graph of a plan is acceptable.
pub fn plans_are_acceptable()
    ensures { PlansAreAcceptable }
{}

/// A graph has one plan at most.
pub fn one_plan()
    ensures { OnePlan }
{}

/// Two faults of one graph are the same fault, or both are cycles.
pub fn one_fault()
    ensures { OneAcceptFault }
{}

/// The least sums from an event are 0 at it, and rise along each arc by at most its tokens.
pub fn least_sums_are_low()
    ensures { LeastSumsAreLow }
{}

/// A graph has one list of least sums from an event.
pub fn one_list_of_sums()
    ensures { OneListOfSums }
{}
