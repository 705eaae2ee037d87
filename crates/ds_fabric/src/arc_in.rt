//! An arc as the event that it enters looks at it: the node whose count is loaded, what its source
//! is of that node, and the tokens, counted in firings of the node. So a look is a load, a
//! difference and two comparisons: how often the source has fired is worked out only where it is
//! asked for.
ghost use Rattle.std.specs.Prelude.{ℕ, ◌≡◌, ◌↔◌, ◌<◌, ◌+◌, IsTrue};
ghost use Rattle.ds_rule.specs.Run.{node_of};
ghost use Rattle.ds_rule.specs.Event.{fired_of};
ghost use Rattle.ds_fabric.specs.Into.{IsArcIn, ahead_of, least_of};

use ds_marked::Arc;
use ds_rule::{EventRole, NodeEvent, RunValues, TableRun};

/// An arc of 8 bytes, which stands beside the other arcs into its event. `ahead` is what its tokens
/// count beside the firings of the node.
#[derive(Clone, Copy)]
pub struct ArcIn {
    pub node: u32,
    pub ahead: u16,
    pub source: EventRole,
}

impl ArcIn {
    /// Of an arc of the run.
    pub fn of<V: RunValues>(run: &TableRun<V>, arc: Arc) -> ArcIn
        requires { node_of run.now arc.source < 4294967296 }
        ensures { IsArcIn run.now arc result }
    {
        let event = NodeEvent::of(arc.source.index(), run.design_nodes());
        ArcIn {
            node: event.node as u32,
            ahead: ahead(event.role, arc.tokens),
            source: event.role,
        }
    }

    /// The tokens are too few for this turn, where the node of the source has fired so often.
    pub fn lacks(self, fired: u64, turn: u64) -> bool
        requires { turn < 9223372036854775808 }
        ensures { (tokens : ℕ) → self.ahead ≡ ahead_of self.source tokens
            → IsTrue result ↔ (fired_of self.source fired + tokens < turn) }
    {
        let enough = least(self.source, turn);
        fired < enough && (self.ahead as u64) < enough - fired
    }
}

// The firings of the node, with what the tokens count beside them, that are enough for so many
// turns.
fn least(source: EventRole, turns: u64) -> u64
    requires { turns < 9223372036854775808 }
    ensures { result ≡ least_of source turns }
{
    match source {
        EventRole::Alone => turns,
        _ => 2 * turns,
    }
}

// What so many tokens count beside the firings of the node.
fn ahead(source: EventRole, tokens: u8) -> u16
    ensures { result ≡ ahead_of source tokens }
{
    let many = tokens as u16;
    match source {
        EventRole::Opening => 2 * many + 1,
        EventRole::Closing => 2 * many,
        EventRole::Alone => many,
    }
}
