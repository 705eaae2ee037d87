/// An opening that is in flight: of which node, and its number, from 1.
#[derive(Clone, Copy)]
pub struct OpeningInFlight {
    pub node: usize,
    pub turn: u64,
}
