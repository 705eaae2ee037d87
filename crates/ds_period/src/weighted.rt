use crate::Timed;

/// Arcs under a ratio p / q, where the weight of one is q times its delay less p times its tokens;
/// and for each event the place of the first arc from it or from a later one.
#[derive(Clone, Copy)]
pub(crate) struct Weighted<'a> {
    pub arcs: &'a [Timed],
    pub firsts: &'a [usize],
    pub p: u64,
    pub q: u64,
}
