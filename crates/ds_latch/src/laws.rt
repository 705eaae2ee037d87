//! Laws of the definitions, each the contract of a function that does nothing.
ghost use Rattle.ds_latch.specs.Flow.{FlowEquivalence, SettlesFromAll, SomeFiring};
ghost use Rattle.ds_latch.specs.Flow.{StoredRowsSpellTrace, OneRowTaken};
ghost use Rattle.ds_latch.specs.Controls.{AcceptedControls, OrdersAreAccepted, RequiredOrdersRise};
ghost use Rattle.ds_latch.specs.Controls.{NothingNewFires, ReorderedIsLegal};
ghost use Rattle.ds_latch.specs.Controls.{Stability, StabilityWithoutSlack};
ghost use Rattle.ds_latch.specs.Transparent.{TransparentLatches};
ghost use Rattle.ds_latch.specs.Windows.{PlanBegins, StoredInWindows, ValuesInWindows};
ghost use Rattle.ds_latch.specs.Headline.{Headline};
ghost use Rattle.ds_latch.specs.Laws.{EventsOfNodes, PlacesDiffer};

/// Each event is one node's.
pub fn events_of_nodes()
    ensures { EventsOfNodes }
{}

/// The places of the openings that a node keeps differ.
pub fn places_differ()
    ensures { PlacesDiffer }
{}

/// An accepted graph controls its design.
pub fn accepted_controls()
    ensures { AcceptedControls }
{}

/// While a consumer is open, no producer of it writes the place that it read.
pub fn stability()
    ensures { Stability }
{}

/// Without slack no producer of an open consumer may open.
pub fn stability_without_slack()
    ensures { StabilityWithoutSlack }
{}

/// What a node takes as it opens is one row.
pub fn one_row_taken()
    ensures { OneRowTaken }
{}

/// After every legal list, what the nodes keep and have stored are their values in the clocked run.
pub fn flow_equivalence()
    ensures { FlowEquivalence }
{}

/// What a finished run has stored spells the trace.
pub fn stored_rows_spell_trace()
    ensures { StoredRowsSpellTrace }
{}

/// A later window has the values of the whole run.
pub fn values_in_windows()
    ensures { ValuesInWindows }
{}

/// A graph stays accepted where the design begins with another row.
pub fn plan_begins()
    ensures { PlanBegins }
{}

/// Every legal list can be fired.
pub fn some_firing()
    ensures { SomeFiring }
{}

/// Some numbering rises along the required orders without tokens.
pub fn required_orders_rise()
    ensures { RequiredOrdersRise }
{}

/// Without slack, transparent latches show exactly what the nodes hold.
pub fn transparent_latches()
    ensures { TransparentLatches }
{}

/// What a node stores in two windows is what it stores in the whole run.
pub fn stored_in_windows()
    ensures { StoredInWindows }
{}

/// A valuation for what IN and all slaves show settles.
pub fn settles_from_all()
    ensures { SettlesFromAll }
{}

/// The required orders alone are an accepted graph.
pub fn orders_are_accepted()
    ensures { OrdersAreAccepted }
{}

/// An accepted graph lets nothing fire that the required orders do not.
pub fn nothing_new_fires()
    ensures { NothingNewFires }
{}

/// A legal list of a graph is one of the same graph with its events at other places.
pub fn reordered_is_legal()
    ensures { ReorderedIsLegal }
{}

/// In whatever order the latches of an accepted graph fire, they do what the clocked circuit does.
pub fn headline()
    ensures { Headline }
{}
