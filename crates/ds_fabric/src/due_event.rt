use ds_rule::EventRole;

/// The event that a node fires next: the node, how often it has fired, and what the event is of it.
#[derive(Clone, Copy)]
pub struct DueEvent {
    pub node: usize,
    pub fired: u64,
    pub role: EventRole,
}
