//! Hints: what a node costs, and plain looks without a seat, which tell nothing, as what was seen
//! may have changed since.
ghost use Rattle.std.specs.Prelude.{◌<◌, ◌≤◌};
ghost use Rattle.ds_rule.specs.Run.{events};

use crate::compute::Compute;
use crate::counts::lacking_between;
use crate::fabric::Fabric;
use ds_base::LatchId;
use ds_rule::RunValues;

impl<'a, V: RunValues, C: Compute> Fabric<'a, V, C> {
    /// The place, among the arcs into the next event of the node, of one on which plain looks at
    /// the counts show too few tokens, whoever holds the node. The looks begin at the place
    /// `first` and go round; a node that is done lacks there for ever. None: the event seems due.
    /// A hint: it tells nothing, as counts may have risen since, and a step alone says what may
    /// fire.
    pub fn seems_lacking(&self, node: LatchId, first: usize) -> Option<usize>
        requires near { node < self.now.run.nodes }
    {
        let number = node.index();
        let fired = self.table.shared.peek(number + 1);
        let event = self.run.next(number, fired);
        let before = self.run.turns(event, fired);
        if before >= self.run.limit() {
            return Some(first);
        }
        self.lacking_from(event, before + 1, first)
    }

    /// A plain look shows a ticket drawn for each firing of the run. A hint, as the others.
    pub fn seems_over(&self) -> bool {
        let events = self.run.nodes() + self.run.design_nodes();
        let firings = (events as u64).saturating_mul(self.run.limit());
        self.table.shared.peek(0) >= firings
    }

    /// How much work an opening of the node is beside the firing where nothing is remembered,
    /// counted in tables.
    pub fn cost(&self, node: LatchId) -> u64
        requires near { node < self.now.run.nodes }
    {
        self.openings.cost(node)
    }

    // The place of an arc into this event that lacks tokens for this turn.
    fn lacking_from(&self, event: usize, turn: u64, first: usize) -> Option<usize>
        requires { (turn < 9223372036854775808) × (event < events self.now.run) }
    {
        let start = self.incoming.starts[event];
        let end = self.incoming.starts[event + 1];
        let middle = place_in(start, end, first);
        let board = &self.table.shared;
        let ahead = lacking_between(board, &self.incoming, turn, middle, end);
        let found = if ahead.is_some() {
            ahead
        } else {
            lacking_between(board, &self.incoming, turn, start, middle)
        };
        let at = found?;
        Some(at.saturating_sub(start))
    }
}

// The place so far behind the start, and the start where that would not be before the end.
fn place_in(start: usize, end: usize, first: usize) -> usize
    requires { start ≤ end }
    ensures { (start ≤ result) × (result ≤ end) }
{
    if first < end - start {
        start + first
    } else {
        start
    }
}
