//! Laws of graphs that are printed: they are read back, and taken.
ghost use Rattle.ds_laws.specs.PrintedGraphs.{PrintedGraphsAreRead, PrintedGraphsAreTaken};
ghost use Rattle.ds_laws.specs.PrintedGraphs.{PrintedGraphsHaveRanks};

/// What `graph` prints, with `--shake` or without, is read as the graph that was printed.
pub fn printed_graphs_are_read()
    ensures { PrintedGraphsAreRead }
{}

/// What `graph` prints, with `--shake` or without, `accept` of the same netlist and clusters does
/// not refuse.
pub fn printed_graphs_are_taken()
    ensures { PrintedGraphsAreTaken }
{}

/// `accept` of what `graph` prints has a text: the ranks of its events.
pub fn printed_graphs_have_ranks()
    ensures { PrintedGraphsHaveRanks }
{}
