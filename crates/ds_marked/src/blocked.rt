use ds_base::ArcId;

/// What keeps an event from firing.
#[derive(Clone, Copy, Debug, PartialEq, Eq)]
pub enum Blocked {
    /// It has fired as often as it may.
    Limit,
    /// The least arc into it that lacks a token.
    Arc(ArcId),
}
