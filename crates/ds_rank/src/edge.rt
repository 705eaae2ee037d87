//! An edge from a node to a later one.

/// An order of two nodes: the source comes before the target.
#[derive(Clone, Copy, Debug, PartialEq, Eq)]
pub struct Edge {
    pub source: u32,
    pub target: u32,
}
