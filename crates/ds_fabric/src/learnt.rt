use ds_base::Scratch;

/// The rows that a scratch has learnt for this turn: an opening of the turn need not read them.
#[derive(Drop)]
pub struct Learnt<'a> {
    pub scratch: &'a Scratch,
    pub turn: u64,
}
