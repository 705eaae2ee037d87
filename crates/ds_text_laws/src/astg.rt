//! Laws of the texts of marked graphs.
ghost use Rattle.ds_text_laws.specs.AstgLaws.{EndsAreRead, EventsAreRead, PlacesAreRead};
ghost use Rattle.ds_text_laws.specs.AstgLaws.{ReadGraphsAreKept, TokensAreRead};
ghost use Rattle.ds_text_laws.specs.AstgPlaces.{ArcsAreOfPlaces};
ghost use Rattle.ds_text_laws.specs.AstgText.{WrittenIsRead, WrittenTextIsRead};
ghost use Rattle.ds_text_laws.specs.AstgWorked.{GraphFaultsAreWorked, GraphsAreWorked};
ghost use Rattle.ds_text_laws.specs.AstgWorked.{ToggleIsWorked};

/// The toggle's graph as it is written stands for its graph.
pub fn toggle_is_worked()
    ensures { ToggleIsWorked }
{}

/// Texts whose graphs are worked by hand.
pub fn graphs_are_worked()
    ensures { GraphsAreWorked }
{}

/// Texts with each kind of fault, worked by hand.
pub fn graph_faults_are_worked()
    ensures { GraphFaultsAreWorked }
{}

/// A signal with a sign, as it is written, is read as its event.
pub fn events_are_read()
    ensures { EventsAreRead }
{}

/// The name of an arc's own place, as it is written, is read as a place.
pub fn places_are_read()
    ensures { PlacesAreRead }
{}

/// An entry with its tokens, as it is written, is read as its place and its tokens.
pub fn tokens_are_read()
    ensures { TokensAreRead }
{}

/// Two events between brackets, as they are written, are read as the place between them.
pub fn ends_are_read()
    ensures { EndsAreRead }
{}

/// The lines that a graph is written as stand for it.
pub fn written_is_read()
    ensures { WrittenIsRead }
{}

/// The text that a graph is written as stands for it, where its lines are such as are printed.
pub fn written_text_is_read()
    ensures { WrittenTextIsRead }
{}

/// The graph that lines stand for has an arc for each place that they have, with its tokens, and no
/// other.
pub fn arcs_are_of_places()
    ensures { ArcsAreOfPlaces }
{}

/// The graph that lines stand for is kept: no event stands twice, and its arcs are in order.
pub fn read_graphs_are_kept()
    ensures { ReadGraphsAreKept }
{}
