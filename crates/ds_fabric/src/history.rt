//! The history of a node: where the words of its firings stand, turn by turn, in a list.
ghost use Rattle.std.specs.Prelude.{◌≡◌, ◌<◌, ◌+◌, ◌*◌, ℕ, true, length};
ghost use Rattle.ds_rule.specs.Run.{Run, turns, opens};
ghost use Rattle.ds_rule.specs.Event.{is_opening};
ghost use Rattle.ds_fabric.specs.HistoryList.{StandsIn, ticket_in, ticket_place, start_of_words};
ghost use Rattle.ds_fabric.specs.HistoryList.{end_of_turn};
ghost use Rattle.ds_fabric.specs.Noted.{IsNextRole, HasSpan};

use ds_rule::EventRole;

/// What a pass keeps of one node. Its firings tell `stride` words a turn: of a latch the row of the
/// opening, its ticket, and that of the closing, of another node the ticket of its one event. They
/// stand in a list that has `step` words a turn, from word `first` of each turn on. `own` is that
/// list where the node has one of its own.
pub struct History {
    pub node: usize,
    pub fired: u64,
    pub stride: usize,
    pub first: usize,
    pub step: usize,
    pub own: Vec<u64>,
}

impl Drop for History {
    fn drop(self) {
        let History {
            node: _,
            fired: _,
            stride: _,
            first: _,
            step: _,
            own: _,
        } = self;
    }
}

impl History {
    /// The ticket of firing number k, from 0, of an event of the node, out of its list.
    pub fn ticket(&self, words: &[u64], role: EventRole, k: usize) -> u64
        requires { (run : Run) × (event : ℕ) × (opens run event ≡ is_opening role)
            × StandsIn run self.now words.now event × (k < turns run event self.now.fired) }
        ensures { (run : Run) (event : ℕ) → opens run event ≡ is_opening role
            → result ≡ ticket_in run self.now words.now event k }
    {
        let place = ticket_place(role, self.stride);
        words[k * self.step + self.first + place]
    }

    /// Where in its list the words of the node's next event begin, whose role this is, and where
    /// the turn ends.
    pub fn span(&self, role: EventRole) -> (usize, usize)
        requires { (run : Run) × IsNextRole run self.now.node self.now.fired role
            × HasSpan run self.now }
        ensures { (run : Run) → IsNextRole run self.now.node self.now.fired role
            → (result.0 ≡ start_of_words run self.now) × (result.1 ≡ end_of_turn run self.now) }
    {
        let turn = role.turns(self.fired) as usize;
        let offset = if role.opens() { 0 } else { self.stride - 1 };
        let begin = turn * self.step;
        (begin + self.first + offset, begin + self.step)
    }
}

// Where among the words of a turn the ticket of such an event stands.
fn ticket_place(role: EventRole, stride: usize) -> usize
    requires wide { 0 < stride }
    requires wider { is_opening role ≡ true → 1 < stride }
    ensures { (run : Run) (event : ℕ) → opens run event ≡ is_opening role
        → result ≡ ticket_place run event stride }
{
    match role {
        EventRole::Opening => stride - 2,
        _ => stride - 1,
    }
}
