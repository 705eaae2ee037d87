//! What orders are searched in.
use ds_marked::Arc;

// The arcs along which walks go, between so many events; the orders that are asked, and the sums of
// tokens that are looked at, which are all below the bound.
#[derive(Clone, Copy)]
pub(crate) struct WalkSearch<'a> {
    pub(crate) arcs: &'a [Arc],
    pub(crate) asked: &'a [Arc],
    pub(crate) events: usize,
    pub(crate) bound: usize,
}
