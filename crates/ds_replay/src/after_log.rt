//! What a log has led to.
use ds_fire::State;

/// The state that a log has led to, by how many firings, and whether its text is to say what open
/// latches show.
#[derive(Clone, Copy)]
pub struct AfterLog<'a> {
    pub state: &'a State<'a>,
    pub fired: u64,
    pub transparent: bool,
}
