use crate::Turn;
use crate::search_path::SearchPath;
use ds_base::Scratch;

/// A worker: its number, its turn, its scratch, and where it looks for nodes.
#[derive(Drop)]
pub struct Worker {
    pub number: u32,
    pub turn: Turn,
    pub scratch: Scratch,
    pub search_path: SearchPath,
}
