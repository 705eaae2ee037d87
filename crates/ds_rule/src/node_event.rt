//! Events by node, where it is known how many nodes are of the design. Only here and in `EventRole`
//! is the number of an event taken apart, or the number of firings of a node.
ghost use Rattle.std.specs.Prelude.{◌≡◌, ◌<◌, ℕ};
ghost use Rattle.ds_rule.specs.Run.{Run, next};
ghost use Rattle.ds_rule.specs.Event.{IsNodeEvent};

use crate::event_role::EventRole;

/// An event: its node, and what it is of the node.
#[derive(Clone, Copy)]
pub struct NodeEvent {
    pub node: usize,
    pub role: EventRole,
}

impl NodeEvent {
    /// The event with this number.
    pub fn of(number: usize, design_nodes: usize) -> NodeEvent
        ensures { (run : Run) → design_nodes ≡ run.design_nodes → IsNodeEvent run result number }
    {
        let half = number / 2;
        if half >= design_nodes {
            let node = number - design_nodes;
            let role = EventRole::Alone;
            NodeEvent { node, role }
        } else if number % 2 == 0 {
            let role = EventRole::Opening;
            NodeEvent { node: half, role }
        } else {
            let role = EventRole::Closing;
            NodeEvent { node: half, role }
        }
    }

    /// The event that the node fires next, where it has fired so often.
    pub fn next(node: usize, fired: u64, design_nodes: usize) -> NodeEvent
        ensures { (run : Run) → design_nodes ≡ run.design_nodes
            → IsNodeEvent run result (next run node fired) }
    {
        let role = if node >= design_nodes {
            EventRole::Alone
        } else if fired % 2 == 0 {
            EventRole::Opening
        } else {
            EventRole::Closing
        };
        NodeEvent { node, role }
    }

    /// Its number.
    pub fn number(self, design_nodes: usize) -> usize
        requires { (design_nodes < 4294967296) × (self.node < 4294967296) }
        ensures { (run : Run) (number : ℕ) → design_nodes ≡ run.design_nodes
            → IsNodeEvent run self number → result ≡ number }
    {
        match self.role {
            EventRole::Opening => 2 * self.node,
            EventRole::Closing => 2 * self.node + 1,
            EventRole::Alone => self.node + design_nodes,
        }
    }
}
