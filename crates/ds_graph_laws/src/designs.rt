//! Laws of designs: their faults and their depth.
ghost use Rattle.ds_graph_laws.specs.DecidedDesigns.{DesignsAreDecided, DesignsHaveDepth};

/// A design whose numbers name what is there is accepted, or has a fault other than want of memory.
pub fn designs_are_decided()
    ensures { DesignsAreDecided }
{}

/// An accepted design has a depth.
pub fn designs_have_depth()
    ensures { DesignsHaveDepth }
{}
