/// How large a run is: how many nodes it has, how many of them are of the design, how often each
/// event may fire, and how many openings a producer may be ahead.
#[derive(Clone, Copy)]
pub struct Sizes {
    pub nodes: usize,
    pub design_nodes: usize,
    pub limit: u64,
    pub slack: usize,
}
