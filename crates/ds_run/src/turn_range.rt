/// The turns from one on, up to another, which is not among them.
#[derive(Clone, Copy)]
pub(crate) struct TurnRange {
    pub(crate) from: usize,
    pub(crate) to: usize,
}
